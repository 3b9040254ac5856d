// The localized card (docs/RULES.md, 6), written for a lent output: all entries of the language's PatchObject, or a refusal from 21 to 27.
ghost use Rattle.std.specs.Prelude.{◌≡◌, ◌<◌, ◌≤◌, length};
ghost use Rattle.patch.specs.Patched.{RunAsks};
ghost use Rattle.patch.specs.Entries.{most_entries};
ghost use Rattle.patch.specs.Drafts.{fitting_of, PutSorted, MakeAsks, Makes, MakesUpTo, MakesFor};

use crate::children::child_row;
use crate::conditions::{first_astray, first_key};
use crate::entries::{FEW_ENTRIES, MORE_ENTRIES, MOST_ENTRIES, SOME_ENTRIES, collect, count};
use crate::sort::{common, sort};
use crate::writing::put_card;
use contact::LocalRefusal;
use json_reader::lookup::next_row;
use json_reader::rows::{OBJECT, kind};

// So many bytes, if they have room; else 27.
fn fitting(count: usize, room: usize) -> Result<usize, LocalRefusal>
    ensures { result ≡ fitting_of count room }
{
    if room < count {
        return Err(LocalRefusal::Short(count));
    }
    Ok(count)
}

// The card written as the sorted entries leave it, which do not clash and whose keys begin alike up to `shared`; unless 25, 26 or 27 is broken. What was
// written counts only if none is.
fn put_sorted(
    card: &[u8],
    card_table: &[u32],
    leave: usize,
    text: &[u8],
    table: &[u32],
    rows: &[u32],
    cues: &mut [u32],
    walks: &mut [u8],
    n: usize,
    out: &mut [u8],
    shared: usize,
) -> Result<usize, LocalRefusal>
    requires { RunAsks rows.now cues.old walks.old 0 n }
    ensures { PutSorted card.now card_table.now leave text.now table.now rows.now n shared out.old out.new result }
{
    let count = put_card(
        card, card_table, leave, text, table, rows, cues, walks, n, out, shared,
    );
    first_astray(text, table, rows, n, walks)?;
    fitting(count, out.len())
}

// The card as the PatchObject at a row of the patch leaves it, if no condition from 22 to 27 is broken and the lent lists have room for its entries. The second
// list is the sort's scratch, and then that of cues.
fn compose_on(
    card: &[u8],
    card_table: &[u32],
    leave: usize,
    text: &[u8],
    table: &[u32],
    patch: usize,
    rows: &mut [u32],
    cues: &mut [u32],
    walks: &mut [u8],
    out: &mut [u8],
) -> Result<usize, LocalRefusal>
    requires { MakeAsks table.now patch rows.old cues.old walks.old }
    ensures { MakesUpTo (length rows.old) card.now card_table.now leave text.now table.now patch out.old out.new result }
{
    let first = patch + 1;
    let end = next_row(table, patch);
    let n = collect(table, first, end, rows);
    let shared = common(text, table, rows, n);
    sort(text, table, shared, rows, cues, 0, n);
    first_key(text, table, rows, n)?;
    put_sorted(
        card, card_table, leave, text, table, rows, cues, walks, n, out, shared,
    )
}

// The same, on lists for N entries. It becomes part of no other function: so these arrays are in no frame but its own.
#[inline(never)]
fn compose_in<const N: usize>(
    card: &[u8],
    card_table: &[u32],
    leave: usize,
    text: &[u8],
    table: &[u32],
    patch: usize,
    out: &mut [u8],
) -> Result<usize, LocalRefusal>
    requires { (patch < length table.now) × (N ≤ most_entries) }
    ensures { MakesUpTo N card.now card_table.now leave text.now table.now patch out.old out.new result }
{
    let mut rows = [0u32; N];
    let mut cues = [0u32; N];
    let mut walks = [0u8; N];
    compose_on(
        card, card_table, leave, text, table, patch, &mut rows, &mut cues, &mut walks, out,
    )
}

// The same, on lists sized by the number of entries, which are closed before what was written is judged.
fn compose(
    card: &[u8],
    card_table: &[u32],
    leave: usize,
    text: &[u8],
    table: &[u32],
    patch: usize,
    out: &mut [u8],
) -> Result<usize, LocalRefusal>
    requires { patch < length table.now }
    ensures { Makes card.now card_table.now leave text.now table.now patch out.old out.new result }
{
    match count(table, patch + 1, next_row(table, patch)) {
        0..=FEW_ENTRIES => {
            compose_in::<FEW_ENTRIES>(card, card_table, leave, text, table, patch, out)
        }
        0..=SOME_ENTRIES => {
            compose_in::<SOME_ENTRIES>(card, card_table, leave, text, table, patch, out)
        }
        0..=MORE_ENTRIES => {
            compose_in::<MORE_ENTRIES>(card, card_table, leave, text, table, patch, out)
        }
        _ => compose_in::<MOST_ENTRIES>(card, card_table, leave, text, table, patch, out),
    }
}

// The card as the PatchObject that it has for a language leaves it.
pub fn compose_for(
    text: &[u8],
    table: &[u32],
    language: &[u8],
    out: &mut [u8],
) -> Result<usize, LocalRefusal>
    ensures { MakesFor text.now table.now language.now out.old out.new result }
{
    let Some(all) = child_row(text, table, 0, b"localizations") else {
        return Err(LocalRefusal::NoLanguage);
    };
    let Some(patch) = child_row(text, table, all, language) else {
        return Err(LocalRefusal::NoLanguage);
    };
    if kind(table, patch) != OBJECT {
        return Err(LocalRefusal::NoLanguage);
    }
    compose(text, table, all, text, table, patch, out)
}
