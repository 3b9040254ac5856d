// Names compared decoded with a byte string (docs/RULES.md, 3.5): as written up to a backslash, and decoded from there on. A comparison stops at the first
// difference.
ghost use Rattle.std.specs.Prelude.{◌≡◌, ◌≤◌, length, drop};
ghost use Rattle.laws.specs.Lists.{part_of};
ghost use Rattle.laws.specs.Order.{is_same, is_less, same};
ghost use Rattle.text.specs.Strings.{decode_from, decode, name_of};
ghost use Rattle.json_reader.specs.Names.{Raw, order_at};

use crate::bytes::{BACKSLASH, OVER, peek};
use crate::decode::{Decoded, cursor_at};
use crate::plain::{Class, alike_from};
use std::cmp::Ordering;

// Bytes of a string that mean nothing but themselves: all but a backslash.
pub struct RawByte;

impl Class for RawByte {
    ghost holds = { Raw };

    ghost within = { λ b raw. raw.byte };

    fn has(b: u16) -> bool {
        b < OVER && b != BACKSLASH
    }
}

// The order by the bytes at the first difference, 256 where a string is over.
pub fn order_at(p: u16, q: u16) -> Ordering
    ensures { result ≡ order_at p q }
{
    match (p, q) {
        (OVER, OVER) => Ordering::Equal,
        (OVER, _) => Ordering::Less,
        (_, OVER) => Ordering::Greater,
        _ => p.cmp(&q),
    }
}

// Is the order that of two that are the same?
pub fn is_same(o: Ordering) -> bool
    ensures { result ≡ is_same o }
{
    o.is_eq()
}

// Is it that of one that comes before the other?
pub(crate) fn is_less(o: Ordering) -> bool
    ensures { result ≡ is_less o }
{
    o.is_lt()
}

// Do a string's inner bytes, decoded from a place on, go on as the literal does from there? Few names have a backslash: as a call it leaves
// the test of all others short enough to stand where it is asked.
#[inline(never)]
fn goes_on(a: &[u8], lit: &[u8], from: usize) -> bool
    requires { from ≤ length lit.now }
    ensures { result ≡ same (decode_from a.now from) (drop from lit.now) }
{
    let left = Decoded {
        name: a,
        at: cursor_at(from),
    };
    left.cmp(lit[from..].iter().copied()).is_eq()
}

// Do a string's inner bytes decode to the literal?
pub fn slice_is(a: &[u8], lit: &[u8]) -> bool
    ensures { result ≡ same (decode a.now) lit.now }
{
    let i = alike_from::<RawByte>(a, 0, lit, 0);
    let p = peek(a, i);
    if p == BACKSLASH {
        return goes_on(a, lit, i);
    }
    p == peek(lit, i)
}

// The bytes of a text from s up to e, or none where they are not inside.
pub fn slice(text: &[u8], s: usize, e: usize) -> &[u8]
    ensures { result.now ≡ part_of text.now s e }
{
    text.get(s..e).unwrap_or(&[])
}

// Is a name of a text, decoded, the literal, as b"uid"?
pub fn name_is(text: &[u8], s: usize, e: usize, lit: &[u8]) -> bool
    ensures { result ≡ same (name_of text.now s e) lit.now }
{
    slice_is(slice(text, s, e), lit)
}
