// Bytes for a lent output, counted always and stored where they fit: all that writes a text or a packing writes by these.
//   put  single bytes, runs of a text, commas, bytes of a string
#![tactic(auto)]

pub mod put;
