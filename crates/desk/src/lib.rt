// What the program says of what it read, over judging.
//   input   its input, read into a buffer
//   limits  the program's own buffers
//   line    the line that it prints
#![tactic(auto)]

pub mod input;
pub mod limits;
pub mod line;
