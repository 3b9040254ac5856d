// The conditions 22 to 26 of a patch (docs/RULES.md, 6.4), the smallest number first, each over all entries, named by the smallest key that breaks it.
// 24: the entries are listed in the order of their pointers, each directly before all that it is a prefix of. So a prefix of another is a prefix of the next;
// and of two that clash the prefix has the smaller key, since 22 is kept. So the smallest key of all that clash is found among those that clash with the next.
// 25 and 26: the walk over the untouched card has left a byte for each entry.
ghost use Rattle.std.specs.Prelude.{◌≡◌, [], ◌≤◌, ◌<◌, length, get_or};
ghost use Rattle.contact.specs.Localize.{key_refusal};
ghost use Rattle.patch.specs.Children.{key_bytes};
ghost use Rattle.patch.specs.Conditions.{clashes_next, at_fault, smaller_row, least_row, number_of, quote_in, one_condition, FirstKey, FirstAstray};

use crate::children::key_at;
use crate::marks::{IN_ARRAY, NO_OBJECT};
use contact::LocalRefusal;
use json_reader::rows::name_start;
use pointers::keys::{clashes, has_bad_tilde, is_own};
use pointers::parts::name_order;
use std::cmp::Ordering;

// What a key can be at fault for: 22 to 26.
#[derive(Clone, Copy)]
enum Fault {
    Tilde,
    Own,
    Clash,
    InArray,
    NoObject,
}

// The key that is listed at i.
fn listed_key<'a>(text: &'a [u8], table: &[u32], rows: &[u32], i: usize) -> &'a [u8]
    requires { i < length rows.now }
    ensures { result.now ≡ key_bytes text.now table.now (get_or rows.now i 0) }
{
    let row = rows[i] as usize;
    key_at(text, table, row)
}

// What the walk left for the entry at i; 0 where there is no byte.
fn walk_at(walks: &[u8], i: usize) -> u8
    ensures { result ≡ get_or walks.now i 0 }
{
    walks.get(i).copied().unwrap_or(0)
}

// 24: does the entry at i clash with the next one?
fn clashes_next(text: &[u8], table: &[u32], rows: &[u32], n: usize, i: usize) -> bool
    requires { (i < n) × (n ≤ length rows.now) }
    ensures { result ≡ clashes_next text.now table.now rows.now n i }
{
    let next = i + 1;
    if n <= next {
        return false;
    }
    clashes(
        listed_key(text, table, rows, i),
        listed_key(text, table, rows, next),
    )
}

// Is the entry at i at fault?
fn at_fault(
    fault: Fault,
    text: &[u8],
    table: &[u32],
    rows: &[u32],
    n: usize,
    walks: &[u8],
    i: usize,
) -> bool
    requires { (i < n) × (n ≤ length rows.now) }
    ensures { result ≡ at_fault fault text.now table.now rows.now n walks.now i }
{
    match fault {
        Fault::Tilde => has_bad_tilde(listed_key(text, table, rows, i)),
        Fault::Own => is_own(listed_key(text, table, rows, i)),
        Fault::Clash => clashes_next(text, table, rows, n, i),
        Fault::InArray => walk_at(walks, i) == IN_ARRAY,
        Fault::NoObject => walk_at(walks, i) == NO_OBJECT,
    }
}

// A row, or the best so far if its key stands before the row's in byte order.
fn smaller_key(text: &[u8], table: &[u32], row: usize, best: Option<usize>) -> Option<usize>
    ensures { result ≡ smaller_row text.now table.now row best }
{
    let Some(other) = best else {
        return Some(row);
    };
    match name_order(key_at(text, table, other), key_at(text, table, row)) {
        Ordering::Less => Some(other),
        Ordering::Equal => Some(row),
        Ordering::Greater => Some(row),
    }
}

// Of the entries at fault the one whose key is the smallest.
fn least(
    fault: Fault,
    text: &[u8],
    table: &[u32],
    rows: &[u32],
    n: usize,
    walks: &[u8],
) -> Option<usize>
    requires { n ≤ length rows.now }
    ensures { result ≡ least_row fault text.now table.now rows.now n walks.now 0 n }
{
    let mut best = None;
    for i in (0..n).rev() {
        if at_fault(fault, text, table, rows, n, walks, i) {
            let row = rows[i] as usize;
            best = smaller_key(text, table, row, best);
        }
    }
    best
}

// Where the opening quote of a row's name stands.
fn quote_at(table: &[u32], row: usize) -> usize
    ensures { result ≡ quote_in table.now row }
{
    let start = name_start(table, row);
    if start == 0 {
        return 0;
    }
    start - 1
}

// The refusal of a fault, with the place of a key.
fn refusal(fault: Fault, place: usize) -> LocalRefusal
    ensures { result ≡ key_refusal (number_of fault) place }
{
    match fault {
        Fault::Tilde => LocalRefusal::BadKey(place),
        Fault::Own => LocalRefusal::OwnLocalizations(place),
        Fault::Clash => LocalRefusal::Clash(place),
        Fault::InArray => LocalRefusal::InArray(place),
        Fault::NoObject => LocalRefusal::NoObject(place),
    }
}

// Is the condition of one fault kept, or which key breaks it?
fn one_condition(
    fault: Fault,
    text: &[u8],
    table: &[u32],
    rows: &[u32],
    n: usize,
    walks: &[u8],
) -> Result<(), LocalRefusal>
    requires { n ≤ length rows.now }
    ensures { result ≡ one_condition fault text.now table.now rows.now n walks.now }
{
    let Some(row) = least(fault, text, table, rows, n, walks) else {
        return Ok(());
    };
    Err(refusal(fault, quote_at(table, row)))
}

// The same of 22, 23 or 24, which ask for no walk.
fn key_condition(
    fault: Fault,
    text: &[u8],
    table: &[u32],
    rows: &[u32],
    n: usize,
) -> Result<(), LocalRefusal>
    requires { n ≤ length rows.now }
    ensures { result ≡ one_condition fault text.now table.now rows.now n [] }
{
    one_condition(fault, text, table, rows, n, b"")
}

// The first of 22, 23 and 24 that the entries break, which are listed in the order of their pointers.
pub(crate) fn first_key(
    text: &[u8],
    table: &[u32],
    rows: &[u32],
    n: usize,
) -> Result<(), LocalRefusal>
    requires { n ≤ length rows.now }
    ensures { FirstKey text.now table.now rows.now n result }
{
    key_condition(Fault::Tilde, text, table, rows, n)?;
    key_condition(Fault::Own, text, table, rows, n)?;
    key_condition(Fault::Clash, text, table, rows, n)
}

// The first of 25 and 26 that they break, by what the walk left.
pub(crate) fn first_astray(
    text: &[u8],
    table: &[u32],
    rows: &[u32],
    n: usize,
    walks: &[u8],
) -> Result<(), LocalRefusal>
    requires { n ≤ length rows.now }
    ensures { FirstAstray text.now table.now rows.now n walks.now result }
{
    one_condition(Fault::InArray, text, table, rows, n, walks)?;
    one_condition(Fault::NoObject, text, table, rows, n, walks)
}
