// Localizing a card: the patch of a language applied to it, by the pointers of crate pointers. From the members of an object up:
//   children    the members of an object by their rows
//   entries     the entries of a PatchObject, listed
//   sort        rows of entries, in the order of their pointers
//   conditions  which of 22 to 26 a patch breaks first, and by which key
//   marks       what is marked of entries while they are walked
//   runs        where a name parts a run of sorted entries
//   names       names as a text has them, or newly spelled
//   writing     values written as they are, or as the entries of a patch leave them
//   compose     the localized card, written or refused
#![tactic(auto)]

mod children;
pub mod compose;
mod conditions;
mod entries;
mod marks;
mod names;
mod runs;
mod sort;
mod writing;
