// The answer of reading in the refusal sheet's numbers (docs/RULES.md, 2.1), and how any answer stands there.
ghost use Rattle.std.specs.Prelude.{◌≡◌};
ghost use Rattle.text.specs.declared.Paper.{Paper};
ghost use Rattle.text.specs.Sheet.{numbers, refused};
ghost use Rattle.answers.specs.Sheet.{counted, written};

use text::{Paper, Refusal};

// A line of the sheet: its number, what goes with it, and the bytes written.
pub fn line(number: u64, second: usize, written: usize) -> Paper
    ensures { result ≡ numbers number second written }
{
    Paper {
        number,
        second: second as u64,
        written: written as u64,
    }
}

// What has a line on the sheet: a refusal, or an answer that may be one.
pub trait OnPaper {
    ghost paper: { Self → Paper };

    // The line.
    fn on_paper(self) -> Paper
        ensures { result ≡ paper self };
}

impl OnPaper for Refusal {
    ghost paper = { refused };

    #[tactic(auto, unfolding(text::specs::Sheet::refused))]
    fn on_paper(self) -> Paper {
        match self {
            Refusal::TooLong => line(1, 0, 0),
            Refusal::Grammar(p) => line(2, p, 0),
            Refusal::Character(p) => line(3, p, 0),
            Refusal::Repeated(p) => line(4, p, 0),
            Refusal::Deep(p) => line(5, p, 0),
            Refusal::Many(p) => line(6, p, 0),
            Refusal::Small(rows) => line(7, rows, 0),
        }
    }
}

// The answer of reading or judging: 0 and the rows, or the refusal's line.
impl<E: OnPaper> OnPaper for Result<usize, E> {
    ghost paper = { counted E.paper };

    fn on_paper(self) -> Paper {
        match self {
            Ok(rows) => line(0, rows, 0),
            Err(refusal) => refusal.on_paper(),
        }
    }
}

// That of localizing, packing or unpacking: 0, the rows or values, and the bytes written; or the refusal's line.
impl<E: OnPaper> OnPaper for Result<(usize, usize), E> {
    ghost paper = { written E.paper };

    fn on_paper(self) -> Paper {
        match self {
            Ok((count, bytes)) => line(0, count, bytes),
            Err(refusal) => refusal.on_paper(),
        }
    }
}
