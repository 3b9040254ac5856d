// Judging and localizing a card (docs/RULES.md, 5 and 6).
// Judging, on the tests of crate formats, from the single value up:
//   content     the content of a string
//   items       the types of a card's values, and their kinds
//   inside      the members of a value, by its rows
//   case        the card at hand and the catalog that is lent
//   catalog     the known properties and the rules, as words and numbers
//   schema      what the catalog says of an object's members
//   types       what a type asks of a value, of its key and of what stands below it
//   rules       rules between members
//   walk        the first breach, row by row
//   judge       the service: read, walked, cleared
// Localizing, on what crate patch writes, with the answers of crate answers:
//   localize    the service: judged, composed, judged again, cleared
#![tactic(auto)]

mod case;
mod catalog;
mod content;
mod inside;
mod items;
pub mod judge;
pub mod localize;
mod rules;
mod schema;
mod types;
mod walk;
