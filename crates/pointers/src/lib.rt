// Keys of a PatchObject as pointers (docs/RULES.md, 6.2), read off a key while it is decoded: nothing is copied.
//   parts  one part of a pointer, compared as written or as it is decoded
//   keys   whole keys: prefixes, order, bad tildes
#![tactic(auto)]

pub mod keys;
pub mod parts;
