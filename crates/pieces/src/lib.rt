// Reading from the wire in pieces, by a reader that keeps no text (docs/RULES.md, 9). What a state is, what a byte does to it and what is promised: crate wire.
//   spots      where in the grammar a state stands, and its answer
//   words      the words of a state, as they are left to the caller
//   literals   what a byte does inside null, false and true
//   figures    inside a number
//   inners     inside a string
//   values     between tokens: a value begins, brackets and commas
//   feed       one byte, wherever it comes
//   runs       bytes that leave a state where it is
//   reader     the service: start, a piece, the end
#![tactic(auto)]

mod feed;
mod figures;
mod inners;
mod literals;
pub mod reader;
mod runs;
mod spots;
mod values;
mod words;
