// What unpacking asks of a packing beside writing it (docs/RULES.md, 10): how many values it has, and whether an object in it has a name twice.
//   places    fields and names by their places
//   repeated  a name twice among some
//   walk      whole packings
#![tactic(auto)]

mod places;
mod repeated;
pub mod walk;

// The bytes of a field's head: the tag, and the length in two.
pub const HEAD: usize = 3;

// The bytes of the longest packing: a content of 65,535, the most that two bytes can say, and its head.
pub const LONGEST: usize = 65538;
