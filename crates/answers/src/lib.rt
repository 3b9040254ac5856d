// What the services answer, without what they do: the answers in the refusal sheet's numbers (docs/RULES.md, 2.1), and that of localizing by a verdict.
//   sheet    any answer's, by the trait `OnPaper`, and reading's refusals
//   paper    the refusals of judging and localizing
//   store    those of packing and unpacking
//   written  what a verdict on the written card makes of it
#![tactic(auto)]

pub mod paper;
pub mod sheet;
pub mod store;
pub mod written;
