// Packing a text for the store (docs/RULES.md, 10): its values as fields, from the rows that reading leaves.
ghost use Rattle.std.specs.Prelude.{◌≡◌, length};
ghost use Rattle.text.specs.Limits.{base};
ghost use Rattle.packing.specs.Services.{Packs};
ghost use Rattle.vault.specs.Laid.{LaidName, LaidValue, Finished};

use crate::contents::{put_content, put_name};
use crate::heads::{NAME, behind_head, put_head};
use fields::LONGEST;
use json_reader::lookup::next_row;
use json_reader::read::read;
use json_reader::rows::{ARRAY, OBJECT, kind, name_end, name_start, value_end, value_start};
use packing::PackRefusal;

// The field of the name of the value at a row, if it stands in an object.
fn put_named(
    text: &[u8],
    table: &[u32],
    row: usize,
    kind: usize,
    out: &mut [u8],
    at: usize,
) -> usize
    ensures { LaidName text.now table.now row kind out.old at out.new result }
{
    if kind != OBJECT {
        return at;
    }
    let ns = name_start(table, row);
    let ne = name_end(table, row);
    let end = put_name(text, ns, ne, out, behind_head(at));
    put_head(NAME, at, end, out);
    end
}

// The field of the value at a row.
fn put_value(text: &[u8], table: &[u32], row: usize, out: &mut [u8], at: usize) -> usize
    ensures { LaidValue text.now table.now row out.old at out.new result }
{
    let k = kind(table, row);
    let start = behind_head(at);
    if k < ARRAY {
        let from = value_start(table, row);
        let to = value_end(table, row);
        let stop = put_content(text, k, from, to, out, start);
        put_head(k, at, stop, out);
        return stop;
    }
    let end = next_row(table, row);
    let mut p = start;
    let mut m = row + 1;
    while m < end {
        p = put_named(text, table, m, k, out, p);
        p = put_value(text, table, m, out, p);
        m = next_row(table, m);
    }
    put_head(k, at, p, out);
    p
}

// The answer on a text of so many rows whose packing has so many bytes, as far as the output had room for them; what is unused is cleared.
fn finish(
    rows: usize,
    len: usize,
    out: &mut [u8],
    table: &mut [u32],
) -> Result<(usize, usize), PackRefusal>
    ensures { Finished rows len out.old table.old result table.new out.new }
{
    if LONGEST < len {
        table.fill(0);
        out.fill(0);
        return Err(PackRefusal::Wide);
    }
    if out.len() < len {
        table.fill(0);
        out.fill(0);
        return Err(PackRefusal::Short(len));
    }
    out[len..].fill(0);
    Ok((rows, len))
}

// Packs a text: its rows in the table and its packing in the output, and zeros behind both; or the first refusal, and zeros alone.
pub fn pack(text: &[u8], out: &mut [u8], table: &mut [u32]) -> Result<(usize, usize), PackRefusal>
    ensures { Packs base (length table.old) (length out.old) text.now result table.new out.new }
{
    match read(text, table) {
        Err(r) => {
            out.fill(0);
            Err(PackRefusal::from(r))
        }
        Ok(n) => {
            let len = put_value(text, table, 0, out, 0);
            finish(n, len, out, table)
        }
    }
}
