// Packed cards for the store (docs/RULES.md, 10): a text packed into tagged fields, and fields unpacked to the compact text.
//   contents  what the fields of names, strings, numbers and words hold
//   heads     the heads of fields
//   pack      packing
//   strings   whether a content is a text or a number, and how a text is spelled
//   cuts      the field at a place
//   values    the value of a field, written as compact text
//   unpack    unpacking
#![tactic(auto)]

mod contents;
mod cuts;
mod heads;
pub mod pack;
mod strings;
pub mod unpack;
mod values;
