// The members of an object by their rows (docs/RULES.md, 6.3): the name of one, and the one of a name.
ghost use Rattle.std.specs.Prelude.{◌≡◌, ℕ};
ghost use Rattle.text.specs.Tree.{Forest};
ghost use Rattle.patch.specs.Children.{key_bytes, Held, ChildFound};

use json_reader::lookup::{find, next_row};
use json_reader::names::slice;
use json_reader::rows::{OBJECT, kind, name_end, name_start};

// The key at a row, as it is written.
pub(crate) fn key_at<'a>(text: &'a [u8], table: &[u32], row: usize) -> &'a [u8]
    ensures { result.now ≡ key_bytes text.now table.now row }
{
    slice(text, name_start(table, row), name_end(table, row))
}

// The row of the member of that name, if the value at a row is an object and has one.
pub(crate) fn child_row(text: &[u8], table: &[u32], row: usize, name: &[u8]) -> Option<usize>
    ensures { (g : Forest) (limit : ℕ) → Held table.now limit row g → ChildFound text.now table.now limit row name.now g result }
{
    if kind(table, row) != OBJECT {
        return None;
    }
    let first = row + 1;
    let end = next_row(table, row);
    find(text, table, first, end, name)
}
