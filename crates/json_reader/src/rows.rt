// Rows of a lent table (docs/RULES.md, 4). No other module knows which word of a row says what.
ghost use Rattle.std.specs.Prelude.{◌≡◌, ◌*◌, ◌<◌, [], ◌∷◌, set};
ghost use Rattle.std.proofs.lemmas.List.Edits.{sets};
ghost use Rattle.text.specs.Limits.{row_words};
ghost use Rattle.text.specs.Words.{links_at};
ghost use Rattle.text.specs.Tree.{row_of};
ghost use Rattle.json_reader.specs.Rows.{Word, Row, word_of, kind_in, name_start_in, name_end_in, start_in, end_in, below_in, parent_in, sibling_in};

use crate::limits::ROW_WORDS;

// The kinds of a row, NULL to OBJECT.
pub const NULL: usize = 1;

pub const FALSE: usize = 2;

pub const TRUE: usize = 3;

pub const NUMBER: usize = 4;

pub const STRING: usize = 5;

pub const ARRAY: usize = 6;

pub const OBJECT: usize = 7;

// Stores a word, where the table has it.
fn put_word(table: &mut [u32], at: usize, word: usize)
    requires { Word word }
    ensures { table.new ≡ set table.old at word }
{
    if at < table.len() {
        table[at] = word as u32;
    }
}

// Stores as much of a row as the table has room for: a table that is too small is said so once the text is read (docs/RULES.md, 3.6).
fn put_some(
    table: &mut [u32],
    row: usize,
    kind: usize,
    ns: usize,
    ne: usize,
    from: usize,
    to: usize,
    below: usize,
)
    requires { Row row kind ns ne from to below }
    ensures { table.new ≡ sets table.old (row * row_words) (row_of kind ns ne from to below 0 0) }
{
    let at = row * ROW_WORDS;
    if table.len() <= at {
        return;
    }
    put_word(table, at, kind);
    put_word(table, at + 1, ns);
    put_word(table, at + 2, ne);
    put_word(table, at + 3, from);
    put_word(table, at + 4, to);
    put_word(table, at + 5, below);
    put_word(table, at + 6, 0);
    put_word(table, at + 7, 0);
}

// Stores a row that has neither parent nor next sibling yet. Where it fits, one test is enough for all of it.
pub(crate) fn put_row(
    table: &mut [u32],
    row: usize,
    kind: usize,
    ns: usize,
    ne: usize,
    from: usize,
    to: usize,
    below: usize,
)
    requires { Row row kind ns ne from to below }
    ensures { table.new ≡ sets table.old (row * row_words) (row_of kind ns ne from to below 0 0) }
{
    let at = row * ROW_WORDS;
    if table.len() < at + ROW_WORDS {
        return put_some(table, row, kind, ns, ne, from, to, below);
    }
    table[at] = kind as u32;
    table[at + 1] = ns as u32;
    table[at + 2] = ne as u32;
    table[at + 3] = from as u32;
    table[at + 4] = to as u32;
    table[at + 5] = below as u32;
    table[at + 6] = 0;
    table[at + 7] = 0;
}

// Stores the row of a value's parent and that of its next sibling, as far as the table has room for them.
pub(crate) fn link(table: &mut [u32], row: usize, parent: usize, next: usize)
    requires { Word row × Word parent × Word next }
    ensures { table.new ≡ sets table.old (links_at row) (parent ∷ next ∷ []) }
{
    let at = row * ROW_WORDS;
    if table.len() < at + ROW_WORDS {
        put_word(table, at + 6, parent);
        put_word(table, at + 7, next);
        return;
    }
    table[at + 6] = parent as u32;
    table[at + 7] = next as u32;
}

// A word of a row, or 0 where the table has it not.
fn word(table: &[u32], row: usize, i: usize) -> usize
    requires { i < row_words }
    ensures { result ≡ word_of table.now row i }
{
    if table.len() <= row {
        return 0;
    }
    let at = row * ROW_WORDS + i;
    if at < table.len() {
        table[at] as usize
    } else {
        0
    }
}

// A value's kind: 1 null, 2 false, 3 true, 4 number, 5 string, 6 array, 7 object; 0 past the table's end.
pub fn kind(table: &[u32], row: usize) -> usize
    ensures { result ≡ kind_in table.now row }
{
    word(table, row, 0)
}

// Where its name starts, after the quote.
pub fn name_start(table: &[u32], row: usize) -> usize
    ensures { result ≡ name_start_in table.now row }
{
    word(table, row, 1)
}

// Where its name ends, before the quote.
pub fn name_end(table: &[u32], row: usize) -> usize
    ensures { result ≡ name_end_in table.now row }
{
    word(table, row, 2)
}

// Where it starts itself.
pub fn value_start(table: &[u32], row: usize) -> usize
    ensures { result ≡ start_in table.now row }
{
    word(table, row, 3)
}

// Where it ends.
pub fn value_end(table: &[u32], row: usize) -> usize
    ensures { result ≡ end_in table.now row }
{
    word(table, row, 4)
}

// How many values are below it.
pub fn below(table: &[u32], row: usize) -> usize
    ensures { result ≡ below_in table.now row }
{
    word(table, row, 5)
}

// The row of the array or object that it directly stands in, or 0 for the root.
pub fn parent(table: &[u32], row: usize) -> usize
    ensures { result ≡ parent_in table.now row }
{
    word(table, row, 6)
}

// The row of the value that follows it there, or 0 where none does.
pub fn next_sibling(table: &[u32], row: usize) -> usize
    ensures { result ≡ sibling_in table.now row }
{
    word(table, row, 7)
}
