// Reading a whole text into a lent table (docs/RULES.md, 3.6 and 7).
ghost use Rattle.std.specs.Prelude.{◌≡◌, ◌*◌, ◌≤◌, length};
ghost use Rattle.text.specs.Limits.{base, loose};
ghost use Rattle.text.specs.Whole.{read_of, Reads};
ghost use Rattle.json_reader.specs.Readers.{limits_in, TextAsks, NamesAsk};
ghost use Rattle.json_reader.specs.Answers.{ReadsRows, Ended, Counted, in_room, KeepsRows};

use crate::limits::{BYTES, DEPTH, ROW_WORDS, VALUES};
use crate::tokens::skip;
use crate::values::read_value;
use text::Refusal;

// The bytes that a name takes at least, up to its value's first byte and with the bracket or comma before it; and the names of shorter texts, fourfold each
// time: what is cleared for a text of more than 256 bytes is then no more than four times what it could use.
const NAME_BYTES: usize = 4;

const SMALL_NAMES: usize = 64;

const SHORT_NAMES: usize = 256;

const MIDDLE_NAMES: usize = 1024;

const LARGE_NAMES: usize = 4096;

const WIDE_NAMES: usize = 16384;

// Reads a text: its rows and zeros after them, or the refusal and zeros alone.
pub fn read(text: &[u8], table: &mut [u32]) -> Result<usize, Refusal>
    ensures { Reads base (length table.old) text.now result table.new }
{
    let n = read_rows(text, table)?;
    table[n * ROW_WORDS..].fill(0);
    Ok(n)
}

// The same, for a caller that clears later: the words behind the rows stay as they were. After a refusal zeros alone.
pub fn read_rows(text: &[u8], table: &mut [u32]) -> Result<usize, Refusal>
    ensures { ReadsRows base text.now table.old result table.new }
{
    let read = read_sized(text, table);
    keep_rows(table, read)
}

// The same, but names aren't compared: for a text that is known to have none twice in an object.
pub fn read_loose(text: &[u8], table: &mut [u32]) -> Result<usize, Refusal>
    ensures { ReadsRows (loose base) text.now table.old result table.new }
{
    let read = read_unnamed(text, table);
    keep_rows(table, read)
}

// The answer on a text whose rows were stored as far as the table has room: that it has too little is said last. After a refusal the table, which may hold
// anything then, is cleared.
fn keep_rows(table: &mut [u32], read: Result<usize, Refusal>) -> Result<usize, Refusal>
    requires { Counted read }
    ensures { KeepsRows table.old read result table.new }
{
    let answer = in_room(table.len(), read);
    if answer.is_err() {
        table.fill(0);
    }
    answer
}

// The same answer, or that a table of so many words is too small.
fn in_room(words: usize, read: Result<usize, Refusal>) -> Result<usize, Refusal>
    requires { Counted read }
    ensures { result ≡ in_room words read }
{
    let n = read?;
    if words < ROW_WORDS * n {
        return Err(Refusal::Small(n));
    }
    Ok(n)
}

// A text read without a store of names.
fn read_unnamed(text: &[u8], table: &mut [u32]) -> Result<usize, Refusal>
    ensures { Ended (read_of (loose base) text.now) table.old table.new result }
{
    if BYTES < text.len() {
        return Err(Refusal::TooLong);
    }
    let mut names = [0u32; 0];
    read_whole(text, table, &mut names)
}

// A text read with a store of names that is sized by it, since the store is cleared at each call.
fn read_sized(text: &[u8], table: &mut [u32]) -> Result<usize, Refusal>
    ensures { Ended (read_of base text.now) table.old table.new result }
{
    if BYTES < text.len() {
        return Err(Refusal::TooLong);
    }
    match text.len().div_ceil(NAME_BYTES) {
        0..=SMALL_NAMES => read_in::<SMALL_NAMES>(text, table),
        0..=SHORT_NAMES => read_in::<SHORT_NAMES>(text, table),
        0..=MIDDLE_NAMES => read_in::<MIDDLE_NAMES>(text, table),
        _ => read_long(text, table),
    }
}

// A text of more than 4 KiB: the larger stores are in no frame but this one's, since it becomes part of no other function. The largest has a word for each
// value that a text may have.
#[inline(never)]
fn read_long(text: &[u8], table: &mut [u32]) -> Result<usize, Refusal>
    requires { length text.now ≤ base.bytes }
    ensures { Ended (read_of base text.now) table.old table.new result }
{
    match text.len().div_ceil(NAME_BYTES) {
        0..=LARGE_NAMES => read_in::<LARGE_NAMES>(text, table),
        0..=WIDE_NAMES => read_in::<WIDE_NAMES>(text, table),
        _ => read_in::<VALUES>(text, table),
    }
}

// A text read with a store of N names.
fn read_in<const N: usize>(text: &[u8], table: &mut [u32]) -> Result<usize, Refusal>
    requires { NamesAsk text.now N }
    ensures { Ended (read_of base text.now) table.old table.new result }
{
    let mut names = [0u32; N];
    read_whole(text, table, &mut names)
}

// A text within the limit of bytes: a value with white space around it.
fn read_whole(text: &[u8], table: &mut [u32], names: &mut [u32]) -> Result<usize, Refusal>
    requires { TextAsks text.now names.old }
    ensures { Ended (read_of (limits_in names.old) text.now) table.old table.new result }
{
    let from = skip(text, 0);
    let (to, count) = read_value(text, table, names, DEPTH, 0, 0, 0, from, 0)?;
    let end = skip(text, to);
    if end < text.len() {
        return Err(Refusal::Grammar(end));
    }
    Ok(count)
}
