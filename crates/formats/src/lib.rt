// The values of a card that are told by their bytes alone (docs/RULES.md, 5.3), each by one test.
//   counts  unsigned integers
//   ids     Ids
//   dates   UTCDateTimes
#![tactic(auto)]

pub mod counts;
pub mod dates;
pub mod ids;
