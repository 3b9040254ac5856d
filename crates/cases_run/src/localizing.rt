// Localizing on stored cases: the number of words of the lent table, the number of bytes of the lent output, a language and a text, with spaces
// between. Written are the refusal's number (0 for none), its second number (the row count), the bytes written, the place inside 28, a sum of all
// words of the table, a sum of all bytes of the output, and after acceptance the localized card itself where it is short.
use crate::buffers::{Buffers, lent, sum_of};
use crate::lines::{cut, number, unpack};
use answers::sheet::OnPaper;
use card::localize::localize;
use contact::LocalRefusal;
use std::io;

// The place of the refusal inside 28, in the localized card; else 0.
fn place_of(answer: Result<(usize, usize), LocalRefusal>) -> u64 {
    match answer {
        Err(LocalRefusal::Inner(inner)) => inner.on_paper().second,
        _ => 0,
    }
}

// A shorter card is written itself.
const SHOWN: usize = 400;

// The bytes that a language may have.
const LANGUAGE: usize = 1000;

// Writes a card that is not empty and short.
fn shown(rt: &impl Print, card: &[u8]) -> io::Result<()> {
    if 0 < card.len() && card.len() < SHOWN {
        rt.print(" ")?;
        rt.write_all(card)?;
    }
    Ok(())
}

fn report(
    rt: &impl Print,
    text: &[u8],
    language: &[u8],
    out: &mut [u8],
    table: &mut [u32],
) -> io::Result<()> {
    let answer = localize(text, language, out, table);
    let paper = answer.on_paper();
    print!(rt; "{} {} {}", paper.number, paper.second, paper.written)?;
    print!(rt; " {} {} {}", place_of(answer), sum_of(table), sum_of(out))?;
    let written = out.len().min(paper.written as usize);
    shown(rt, &out[..written])?;
    rt.print("\n")
}

pub fn case_of(rt: &impl Print, line: &[u8], buffers: Buffers) -> io::Result<()> {
    let Buffers {
        base,
        text,
        out,
        table,
    } = buffers;
    let (words, line) = cut(line, b' ');
    let (room, line) = cut(line, b' ');
    let (name, line) = cut(line, b' ');
    let mut language = [0u8; LANGUAGE];
    let named = unpack(name, base, &mut language);
    let size = unpack(line, base, text);
    let out = lent(out, number(room), u8::MAX);
    let table = lent(table, number(words), u32::MAX);
    report(rt, &text[..size], &language[..named], out, table)
}
