// Rows found from other rows (docs/RULES.md, 4): the one after a value, and the member of a name.
ghost use Rattle.std.specs.Prelude.{◌≡◌};
ghost use Rattle.laws.specs.Order.{same};
ghost use Rattle.text.specs.Strings.{name_of};
ghost use Rattle.text.specs.Tree.{Forest};
ghost use Rattle.text.specs.Standing.{StandsTo};
ghost use Rattle.json_reader.specs.Rows.{name_start_in, name_end_in};
ghost use Rattle.json_reader.specs.Lookup.{row_after, Finds};

use crate::names::name_is;
use crate::rows::{below, name_end, name_start};

// The row after a value and all that is below it. The largest number is that of no row.
pub fn next_row(table: &[u32], at: usize) -> usize
    ensures { result ≡ row_after table.now at }
{
    if at == usize::MAX {
        return at;
    }
    at + 1 + below(table, at)
}

// Is the value at a row a member of that name?
fn is_named(text: &[u8], table: &[u32], at: usize, name: &[u8]) -> bool
    ensures { result ≡ same (name_of text.now (name_start_in table.now at) (name_end_in table.now at)) name.now }
{
    name_is(text, name_start(table, at), name_end(table, at), name)
}

// The row of the first value among those of the rows from .. end that has the name. The name is given decoded: a backslash in it is one.
pub fn find(text: &[u8], table: &[u32], from: usize, end: usize, name: &[u8]) -> Option<usize>
    ensures { (f : Forest) → StandsTo table.now from end f → Finds text.now table.now end name.now f result }
{
    let mut at = from;
    while at < end {
        if is_named(text, table, at, name) {
            return Some(at);
        }
        at = next_row(table, at);
    }
    None
}
