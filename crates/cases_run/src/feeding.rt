// Reading in pieces on stored cases: lengths of pieces with commas between, a space, and a text. The text is read as one piece, and then once for each length,
// with an empty piece after each piece; after its end come calls that may change nothing. Written are the answer's number (0 for none) and its second
// number (the count of values), for each reading after how many bytes the answer came (0: at the end), and 1 if all of them answered that and stayed with
// it, else 0.
use crate::buffers::Buffers;
use crate::lines::{cut, number, unpack};
use pieces::reader::{end, said, start, take};
use std::io;
use wire::Held;

// Do two readers say the same?
fn same(one: Held, other: Held) -> bool {
    let a = said(one);
    let b = said(other);
    a.number == b.number && a.second == b.second
}

// Does a reader that was told the end say the same after one more, after a piece, and after an end again?
fn stays(held: Held) -> bool {
    let again = end(held);
    let more = take(again, b"1]");
    let last = end(more);
    same(held, again) && same(held, more) && same(held, last)
}

// A reading so far: the reader, after how many bytes it answered, if it has, and did it stay with that?
#[derive(Clone, Copy)]
struct Fed {
    held: Held,
    told: Option<usize>,
    kept: bool,
}

impl Fed {
    fn start() -> Fed {
        Fed {
            held: start(),
            told: None,
            kept: true,
        }
    }

    // A piece more, up to a place.
    fn take(self, piece: &[u8], at: usize) -> Fed {
        let held = take(self.held, piece);
        let paper = said(held);
        match self.told {
            Some(_) => Fed {
                held,
                kept: self.kept && same(self.held, held),
                ..self
            },
            None if paper.number == 0 => Fed {
                held,
                kept: self.kept && paper.second == 0,
                ..self
            },
            None => Fed {
                held,
                told: Some(at),
                ..self
            },
        }
    }

    // The end, which changes no answer that came before.
    fn end(self) -> Fed {
        let held = end(self.held);
        let stayed = self.told.is_none() || same(self.held, held);
        Fed {
            held,
            kept: self.kept && stayed && stays(held),
            ..self
        }
    }

    // After how many bytes the answer came, or 0.
    fn place(self) -> usize {
        self.told.unwrap_or(0)
    }
}

// Reads a text in pieces of that length; with 0 it is one piece.
fn feed(text: &[u8], size: usize) -> Fed {
    let size = if size == 0 { usize::MAX } else { size };
    let mut f = Fed::start();
    let mut at = 0;
    for piece in text.chunks(size) {
        at += piece.len();
        f = f.take(piece, at).take(b"", at);
    }
    f.end()
}

// Reads a text in pieces of each length, and writes after how many bytes the answer came; has each the answer of the text as one piece?
fn readings(rt: &impl Print, sizes: &[u8], text: &[u8], whole: Held) -> io::Result<bool> {
    let mut kept = true;
    let mut rest = sizes;
    while !rest.is_empty() {
        let (size, more) = cut(rest, b',');
        let f = feed(text, number(size));
        print!(rt; " {}", f.place())?;
        kept = kept && f.kept && same(f.held, whole);
        rest = more;
    }
    Ok(kept)
}

fn report(rt: &impl Print, sizes: &[u8], text: &[u8]) -> io::Result<()> {
    let whole = feed(text, 0);
    let paper = said(whole.held);
    print!(rt; "{} {} {}", paper.number, paper.second, whole.place())?;
    let kept = readings(rt, sizes, text, whole.held)?;
    println!(rt; " {}", u8::from(kept && whole.kept))
}

pub fn case_of(rt: &impl Print, line: &[u8], buffers: Buffers) -> io::Result<()> {
    let Buffers { base, text, .. } = buffers;
    let (sizes, line) = cut(line, b' ');
    let size = unpack(line, base, text);
    report(rt, sizes, &text[..size])
}
