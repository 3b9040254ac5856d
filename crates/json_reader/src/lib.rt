// Reading: a text becomes rows, or is refused (docs/RULES.md, 3).
//   limits      the limits of reading
//   bytes       the byte at a place
//   chars       one step inside a string
//   plain       bytes that stand for themselves, eight at a time
//   strings     where a string ends, and where its whole characters do
//   decode      a string's decoded bytes, one at a time
//   names       names compared decoded
//   quoted      names told by the places of their quotes, compared up to their closing ones
//   sort        the places of names, sorted by name and place
//   repeated    the earliest repeated name
//   tokens      white space, literals and numbers
//   rows        the words of a row, stored and read
//   lookup      rows found from other rows: the next one beside a value, and the member of a name
//   members     how an item begins: a member's name and colon
//   containers  the two containers, and how their items begin
//   values      values, arrays and objects
//   read        whole texts
#![tactic(auto)]

pub mod bytes;
pub mod chars;
mod containers;
pub mod decode;
pub mod limits;
pub mod lookup;
mod members;
pub mod names;
pub mod plain;
mod quoted;
pub mod read;
mod repeated;
pub mod rows;
mod sort;
pub mod strings;
pub mod tokens;
mod values;
