// The line of the program `intake` on stored cases, which are its inputs. Written are its two numbers and a sum of all words of the table that the program has.
use crate::buffers::{Buffers, lent};
use crate::lines::unpack;
use crate::reading::report;
use desk::limits::ROWS;
use desk::line::line_for;
use json_reader::limits::ROW_WORDS;
use std::io;

const LENT: usize = ROWS * ROW_WORDS;

pub fn case_of(rt: &impl Print, line: &[u8], buffers: Buffers) -> io::Result<()> {
    let Buffers {
        base,
        text,
        out: _,
        table,
    } = buffers;
    let size = unpack(line, base, text);
    let table = lent(table, LENT, u32::MAX);
    let paper = line_for(&text[..size], table);
    report(rt, paper, table)
}
