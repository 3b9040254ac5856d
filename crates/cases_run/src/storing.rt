// Packing and unpacking on stored cases. A case of packing has the number of words of the lent table, the number of bytes of the lent output and a text, with
// spaces between. Written are the refusal's number (0 for none), its second number (the row count), the bytes written, a sum of all words of the table
// and a sum of all bytes of the output. A case of unpacking has the number of bytes of the lent output and a packing; the line has no sum of a table.
use crate::buffers::{Buffers, lent, sum_of};
use crate::lines::{cut, number, unpack};
use answers::sheet::OnPaper;
use std::io;
use text::Paper;

// The three numbers of an answer.
fn show_paper(rt: &impl Print, paper: Paper) -> io::Result<()> {
    print!(rt; "{} {} {}", paper.number, paper.second, paper.written)
}

pub fn pack_case(rt: &impl Print, line: &[u8], buffers: Buffers) -> io::Result<()> {
    let Buffers {
        base,
        text,
        out,
        table,
    } = buffers;
    let (words, line) = cut(line, b' ');
    let (room, line) = cut(line, b' ');
    let size = unpack(line, base, text);
    let out = lent(out, number(room), u8::MAX);
    let table = lent(table, number(words), u32::MAX);
    let paper = vault::pack::pack(&text[..size], out, table).on_paper();
    show_paper(rt, paper)?;
    println!(rt; " {} {}", sum_of(table), sum_of(out))
}

pub fn unpack_case(rt: &impl Print, line: &[u8], buffers: Buffers) -> io::Result<()> {
    let Buffers {
        base,
        text,
        out,
        table: _,
    } = buffers;
    let (room, line) = cut(line, b' ');
    let size = unpack(line, base, text);
    let out = lent(out, number(room), u8::MAX);
    let paper = vault::unpack::unpack(&text[..size], out).on_paper();
    show_paper(rt, paper)?;
    println!(rt; " {}", sum_of(out))
}
