// What a byte does inside a literal.
ghost use Rattle.std.specs.Prelude.{◌≡◌, cond, eqb};
ghost use Rattle.pieces.specs.Turns.{awaited_at, behind_at};

use crate::spots::{AFTER, GRAMMAR, LITERALS};

// The byte that must come leads on.
fn expect(b: u16, want: u8, next: u32) -> u32
    ensures { result ≡ cond (eqb b want) next 102 }
{
    if b == want as u16 {
        return next;
    }
    GRAMMAR
}

// The spot behind a byte, by what must still come; GRAMMAR where the byte isn't the next of it.
pub(crate) fn spelled(k: u32, b: u16) -> u32
    ensures { result ≡ cond (eqb b (awaited_at k)) (behind_at k) 102 }
{
    match k {
        0 => expect(b, b'u', LITERALS + 1),
        1 => expect(b, b'l', LITERALS + 2),
        2 => expect(b, b'l', AFTER),
        3 => expect(b, b'a', LITERALS + 4),
        4 => expect(b, b'l', LITERALS + 5),
        5 => expect(b, b's', LITERALS + 6),
        6 => expect(b, b'e', AFTER),
        7 => expect(b, b'r', LITERALS + 8),
        _ => expect(b, b'u', LITERALS + 6),
    }
}
