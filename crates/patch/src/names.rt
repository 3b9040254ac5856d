// Names for a lent output (docs/RULES.md, 6.7): as a text has them, or newly spelled from a pointer's part.
ghost use Rattle.text.specs.Doc.{label_at};
ghost use Rattle.text.specs.Writing.{spelled};
ghost use Rattle.json_reader.specs.Cursors.{rest};
ghost use Rattle.output.specs.Written.{Wrote};
ghost use Rattle.pointers.specs.Parts.{part_left};
ghost use Rattle.patch.specs.Spelled.{spelled_rest};

use json_reader::decode::{Cursor, cursor_at};
use output::put::{put_byte, put_run, put_spelled_byte};
use pointers::parts::{own_end, part_byte};

// A name as a text has it, with its quotes; nothing for what has no name.
pub(crate) fn put_label(text: &[u8], ns: usize, ne: usize, out: &mut [u8], at: usize) -> usize
    ensures { Wrote out.old at (label_at text.now ns ne) out.new result }
{
    if ns == 0 {
        return at;
    }
    if text.len() <= ne {
        return at;
    }
    put_run(text, ns - 1, ne + 1, out, at)
}

// What is left of the part of a pointer at the cursor as the rest of a new name, with its last quote.
fn put_spelled_rest(key: &[u8], from: Cursor, out: &mut [u8], at: usize) -> usize
    ensures { Wrote out.old at (spelled_rest (part_left (rest key.now from))) out.new result }
{
    let mut p = at;
    let mut c = from;
    while let Some((b, on)) = part_byte(key, c) {
        p = put_spelled_byte(b, out, p);
        c = on;
    }
    put_byte(out, p, b'"')
}

// The part of a pointer at the cursor as a new name, between quotes. Bytes that spell themselves, mostly all of them, are copied in one run.
pub(crate) fn put_spelled(key: &[u8], from: Cursor, out: &mut [u8], at: usize) -> usize
    ensures { Wrote out.old at (spelled (part_left (rest key.now from))) out.new result }
{
    let p = put_byte(out, at, b'"');
    if from.left != 0 {
        return put_spelled_rest(key, from, out, p);
    }
    let start = from.at;
    let end = own_end(key, start);
    let q = put_run(key, start, end, out, p);
    put_spelled_rest(key, cursor_at(end), out, q)
}
