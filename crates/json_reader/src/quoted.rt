// Names told by the places of their quotes (docs/RULES.md, 3.5): compared decoded, each from a place inside it up to its closing quote. No end is looked for
// first and a comparison stops at the first difference, so it costs no more than the shorter name.
ghost use Rattle.std.specs.Prelude.{◌≡◌, ◌+◌};
ghost use Rattle.std.specs.Iterator.{YieldsFirst, item_count};
ghost use Rattle.laws.specs.Order.{order_of, same};
ghost use Rattle.repeats.specs.Quoted.{quoted_from, tail_at};
ghost use Rattle.json_reader.specs.Quoted.{rest_to, ended, Written};

use crate::bytes::{BACKSLASH, OVER, QUOTE, peek};
use crate::decode::{Cursor, cursor_at, next_byte};
use crate::names::order_at;
use crate::plain::{Class, PlainByte, alike_eights, alike_from};
use laws::labels::Labels;
use std::cmp::Ordering;

// What is left at a cursor of a name in a text, decoded, up to its closing quote.
#[derive(Drop)]
struct Quoted<'a> {
    text: &'a [u8],
    at: Cursor,
}

impl<'a> Iterator for Quoted<'a> {
    type Item = u8;

    ghost next_gives = { YieldsFirst (λ s. rest_to s.text.now s.at) };

    ghost remaining = { item_count (λ s. rest_to s.text.now s.at) };

    #[inline(always)]
    fn next(&mut self) -> Option<u8> {
        if self.at.left == 0 && peek(self.text, self.at.at) == QUOTE {
            return None;
        }
        let (b, on) = next_byte(self.text, self.at)?;
        self.at = on;
        Some(b)
    }
}

// The order of two names' decoded bytes, from two places on.
fn order_decoded(text: &[u8], a: usize, b: usize) -> Ordering
    ensures { result ≡ order_of (quoted_from text.now a) (quoted_from text.now b) }
{
    let first = Quoted {
        text,
        at: cursor_at(a),
    };
    first.cmp(Quoted {
        text,
        at: cursor_at(b),
    })
}

// Bytes of a name that mean nothing but themselves: neither its quote nor a backslash.
struct WrittenByte;

impl Class for WrittenByte {
    ghost holds = { Written };

    ghost within = { λ b written. written.raw.byte };

    fn has(b: u16) -> bool {
        b < OVER && b != BACKSLASH && b != QUOTE
    }
}

// A byte of a name, 256 where the name is over: a quote ends it as the text's end does.
fn ended(p: u16) -> u16
    ensures { result ≡ ended p }
{
    if p == QUOTE {
        return OVER;
    }
    p
}

// The order of two names from two places on: as written up to a backslash, and decoded from there on. It stays a call: as a part of the
// search of a few names, which asks for it seldom, it would take the registers from the test of first bytes.
#[inline(never)]
fn order_along(text: &[u8], a: usize, b: usize) -> Ordering
    ensures { result ≡ order_of (quoted_from text.now a) (quoted_from text.now b) }
{
    let k = alike_from::<WrittenByte>(text, a, text, b);
    let x = a + k;
    let y = b + k;
    let p = peek(text, x);
    if p == BACKSLASH {
        return order_decoded(text, x, y);
    }
    let q = peek(text, y);
    if q == BACKSLASH {
        return order_decoded(text, x, y);
    }
    order_at(ended(p), ended(q))
}

// Are two names the same from two places on? Most differ in the first byte: a test that is short enough to stand where a few names are
// compared. It answers no order, which would be put together for each pair only to be asked whether it is that of two that are the same.
fn same_from(text: &[u8], a: usize, b: usize) -> bool
    ensures { result ≡ same (quoted_from text.now a) (quoted_from text.now b) }
{
    let first = peek(text, a);
    let second = peek(text, b);
    if first == second {
        return order_along(text, a, b).is_eq();
    }
    if first == BACKSLASH {
        return order_along(text, a, b).is_eq();
    }
    if second == BACKSLASH {
        return order_along(text, a, b).is_eq();
    }
    order_at(ended(first), ended(second)).is_eq()
}

// The order of two names from two places on, where many begin alike. Only sorting calls it, in one place, so that it becomes part of the merge.
fn order_eights(text: &[u8], a: usize, b: usize) -> Ordering
    ensures { result ≡ order_of (quoted_from text.now a) (quoted_from text.now b) }
{
    let k = alike_eights::<PlainByte>(text, a, text, b);
    let x = a + k;
    let y = b + k;
    let p = peek(text, x);
    if p != BACKSLASH {
        let q = peek(text, y);
        if q != BACKSLASH {
            let first = ended(p);
            let second = ended(q);
            if first != second {
                return order_at(first, second);
            }
        }
    }
    order_along(text, x, y)
}

// The names at the places of their opening quotes, compared from `behind` bytes behind these on: more than one where all of them begin alike.
#[derive(Clone, Copy)]
pub(crate) struct Names<'a> {
    pub text: &'a [u8],
    pub behind: u32,
}

impl<'a> Labels for Names<'a> {
    ghost label = { λ names. tail_at names.text.now names.behind };

    fn order(&self, p: u32, q: u32) -> Ordering {
        order_eights(self.text, self.inside(p), self.inside(q))
    }

    fn same(&self, p: u32, q: u32) -> bool {
        same_from(self.text, self.inside(p), self.inside(q))
    }

    fn before(&self, p: u32, q: u32) -> bool {
        order_along(self.text, self.inside(p), self.inside(q)).is_lt()
    }
}

impl<'a> Names<'a> {
    // Where a comparison of the name at a place begins.
    fn inside(&self, place: u32) -> usize
        ensures { result ≡ place + self.now.behind }
    {
        place as usize + self.behind as usize
    }
}
