// Reading and judging on stored cases, which have one form: the number of words of the lent table, a space, and a text. Written are the refusal's
// number (0 for none), its second number (the row count), and a sum of all words of the table.
use crate::buffers::{Buffers, lent, sum_of};
use crate::lines::{cut, number, unpack};
use answers::sheet::OnPaper;
use card::judge::judge;
use json_reader::read::read;
use std::io;
use text::Paper;

// The line of an answer, and of the table that was lent for it.
pub fn report(rt: &impl Print, paper: Paper, table: &[u32]) -> io::Result<()> {
    println!(rt; "{} {} {}", paper.number, paper.second, sum_of(table))
}

// A case of a service that answers a text on a table.
fn case_of<F: Fn(&[u8], &mut [u32]) -> Paper>(
    rt: &impl Print,
    answer: F,
    line: &[u8],
    buffers: Buffers,
) -> io::Result<()>
    requires { F.IsAlwaysCallable answer }
{
    let Buffers {
        base,
        text,
        out: _,
        table,
    } = buffers;
    let (words, line) = cut(line, b' ');
    let size = unpack(line, base, text);
    let table = lent(table, number(words), u32::MAX);
    let paper = answer(&text[..size], table);
    report(rt, paper, table)
}

pub fn read_case(rt: &impl Print, line: &[u8], buffers: Buffers) -> io::Result<()> {
    case_of(
        rt,
        |text, table| read(text, table).on_paper(),
        line,
        buffers,
    )
}

pub fn judge_case(rt: &impl Print, line: &[u8], buffers: Buffers) -> io::Result<()> {
    case_of(
        rt,
        |text, table| judge(text, table).on_paper(),
        line,
        buffers,
    )
}
