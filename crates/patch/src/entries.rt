// The entries of a PatchObject (docs/RULES.md, 6.4), listed by their rows.
ghost use Rattle.std.specs.Prelude.{◌≡◌};
ghost use Rattle.text.specs.Tree.{Forest};
ghost use Rattle.text.specs.Standing.{StandsTo};
ghost use Rattle.patch.specs.Entries.{width, Collected};

use json_reader::limits::VALUES;
use json_reader::lookup::next_row;

// A card has no more values, so a PatchObject has no more entries.
pub(crate) const MOST_ENTRIES: usize = VALUES;

// So few are listed, sorted and marked in little room, which costs little to clear.
pub(crate) const FEW_ENTRIES: usize = 64;

// A text of 4 KiB has no more.
pub(crate) const SOME_ENTRIES: usize = 640;

// A patch beyond that seldom has more, and so much room costs less to clear than the most.
pub(crate) const MORE_ENTRIES: usize = 4096;

// How many members stand from one row up to another.
pub(crate) fn count(table: &[u32], from: usize, end: usize) -> usize
    ensures { (f : Forest) → StandsTo table.now from end f → result ≡ width f }
{
    let mut n = 0;
    let mut at = from;
    while at < end {
        n += 1;
        at = next_row(table, at);
    }
    n
}

// Lists the rows of the members from one row up to another, in their order, and counts them, as far as the list has room. A card has no rows past the most,
// so none are listed there.
pub(crate) fn collect(table: &[u32], from: usize, end: usize, rows: &mut [u32]) -> usize
    ensures { Collected table.now from end rows.new result }
{
    if MOST_ENTRIES < end {
        return 0;
    }
    let mut n = 0;
    let mut at = from;
    while at < end {
        if rows.len() <= n {
            return n;
        }
        rows[n] = at as u32;
        n += 1;
        at = next_row(table, at);
    }
    n
}
