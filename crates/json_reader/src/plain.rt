// Bytes of a string that stand for themselves (docs/RULES.md, 3.4), eight at a time.
ghost use Rattle.std.specs.Prelude.{◌≡◌, ℕ, ◌+◌, ◌-◌, ◌*◌, ◌<◌, ◌≤◌, length};
ghost use Rattle.text.specs.Chars.{Chars};
ghost use Rattle.json_reader.specs.Plain.{packed_at, Plain, Own, Told, Bytes, AlikeBytes, MarkedBytes, AlikeTo, AlikeRun};
ghost use native.Mathlib.Omega.{arith};

use crate::bytes::{BACKSLASH, QUOTE, SLASH, SPACE, TILDE, peek};

// A class of bytes, told one at a time.
pub trait Class {
    ghost holds: { ℕ → Type 0 };

    fn has(b: u16) -> bool
        ensures { Told (holds b) result };

    // So many bytes that stand from two places on are told at once to be alike and in the class, before others are told one at a time.
    // None, unless a class knows better.
    fn alike_start(text: &[u8], a: usize, other: &[u8], b: usize) -> usize
        ensures { AlikeTo holds text.now a other.now b result }
    {
        0
    }

    // The end of a text, which is no byte, is in none.
    ghost within: { (b : ℕ) → holds b → b < 256 };
}

// What is told of eight bytes at once, by its own word of what it tells: so a class can be told by it before it is known to be one.
pub trait Eights {
    ghost holds: { ℕ → Type 0 };

    // Marks of a number's eight bytes: each of which it doesn't hold has its highest bit.
    fn marks_of(w: u64) -> u64
        ensures { MarkedBytes holds result w };
}

// A class that is told of eight bytes at once too.
pub trait Marked: Class {
    // Marks of a number's eight bytes: each that isn't in the class has its highest bit.
    fn marks(w: u64) -> u64
        ensures { MarkedBytes Self.holds result w };
}

// Bytes that stand for themselves.
pub struct PlainByte;

// Those that stand for themselves in a part of a pointer too.
pub struct OwnByte;

// A number with a byte put below it.
fn above(low: u8, high: u64) -> u64
    requires { high < 0x100000000000000 }
    ensures { (result ≡ low + 256 * high) × (result < 256 * (high + 1)) }
{
    low as u64 + 256 * high
}

// The eight bytes from a place on as a number, the first one lowest.
fn eight(text: &[u8], at: usize) -> u64
    requires { at + 8 ≤ length text.now }
    ensures { result ≡ packed_at text.now 8 at }
{
    let h = above(text[at + 7], 0);
    let g = above(text[at + 6], h);
    let f = above(text[at + 5], g);
    let e = above(text[at + 4], f);
    let d = above(text[at + 3], e);
    let c = above(text[at + 2], d);
    let b = above(text[at + 1], c);
    above(text[at], b)
}

impl Class for PlainByte {
    ghost holds = { Plain };

    ghost within = { λ b p. Prim.omega (arith, p.ascii) };

    fn has(b: u16) -> bool {
        matches!(b, SPACE..0x80) && b != QUOTE && b != BACKSLASH
    }

    fn alike_start(text: &[u8], a: usize, other: &[u8], b: usize) -> usize {
        alike_eights::<PlainByte>(text, a, other, b)
    }
}

impl Eights for PlainByte {
    ghost holds = { Plain };

    // No sum reaches the next byte, and with its second bit turned the quote stands among the controls, below 33, and nothing else does.
    fn marks_of(w: u64) -> u64 {
        let low = w & 0x7F7F7F7F7F7F7F7F;
        let shown = (low ^ 0x0202020202020202) + 0x5F5F5F5F5F5F5F5F;
        let no_back = (low ^ 0x5C5C5C5C5C5C5C5C) + 0x7F7F7F7F7F7F7F7F;
        let good = shown & no_back;
        (w | (good ^ 0x8080808080808080)) & 0x8080808080808080
    }
}

impl Marked for PlainByte {
    fn marks(w: u64) -> u64 {
        PlainByte::marks_of(w)
    }
}

impl Class for OwnByte {
    ghost holds = { Own };

    ghost within = { λ b p. Prim.omega (arith, p.plain.ascii) };

    fn has(b: u16) -> bool {
        PlainByte::has(b) && b != SLASH && b != TILDE
    }

    fn alike_start(text: &[u8], a: usize, other: &[u8], b: usize) -> usize {
        alike_eights::<OwnByte>(text, a, other, b)
    }
}

impl Eights for OwnByte {
    ghost holds = { Own };

    // The plain marks, and those of a slash and a tilde.
    fn marks_of(w: u64) -> u64 {
        let low = w & 0x7F7F7F7F7F7F7F7F;
        let no_slash = (low ^ 0x2F2F2F2F2F2F2F2F) + 0x7F7F7F7F7F7F7F7F;
        let no_tilde = (low ^ 0x7E7E7E7E7E7E7E7E) + 0x7F7F7F7F7F7F7F7F;
        let good = no_slash & no_tilde;
        let marks = (w | (good ^ 0x8080808080808080)) & 0x8080808080808080;
        PlainByte::marks_of(w) | marks
    }
}

impl Marked for OwnByte {
    fn marks(w: u64) -> u64 {
        OwnByte::marks_of(w)
    }
}

// So many of a number's eight bytes, from the lowest on, are plain: those below the lowest mark.
fn plain_bytes(w: u64) -> usize
    ensures { (result ≤ 8) × Bytes Plain result w }
{
    (u64::trailing_zeros(PlainByte::marks_of(w)) / 8) as usize
}

// So many of two numbers' eight bytes, from the lowest on, are in a class and the same: those up to the lowest mark or bit that differs.
fn alike_bytes<C: Eights>(v: u64, w: u64) -> usize
    ensures { (result ≤ 8) × AlikeBytes C.holds result v w }
{
    let ends = C::marks_of(v) | (v ^ w);
    (u64::trailing_zeros(ends) / 8) as usize
}

// A place that plain bytes lead to from a place inside a string; fewer than eight of them may follow. A byte above 127 ends them at once, so
// that a space between words of another script costs no eight bytes.
pub(crate) fn plain_end(text: &[u8], from: usize) -> usize
    ensures { Chars text.now from result }
{
    if 0x7F < peek(text, from) {
        return from;
    }
    if text.len() < 8 {
        return from;
    }
    let last = text.len() - 8;
    let mut at = from;
    while at <= last {
        let run = plain_bytes(eight(text, at));
        if run < 8 {
            return at + run;
        }
        at += 8;
    }
    at
}

// How many bytes stand from a place on.
fn left_from(text: &[u8], at: usize) -> usize
    ensures { result ≡ length text.now - at }
{
    text.len().saturating_sub(at)
}

// So many bytes stand from both of two places on: the fewer of the two.
fn room(text: &[u8], a: usize, other: &[u8], b: usize) -> usize
    ensures { (result ≤ length text.now - a) × (result ≤ length other.now - b) }
{
    left_from(text, a).min(left_from(other, b))
}

// So many bytes stand alike from two places on and are in a class, told eight at a time: up to the first that isn't so, or fewer than eight
// bytes before the end of a text. A turn adds eight, whatever it finds, so that none waits for the one before.
pub(crate) fn alike_eights<C: Eights>(text: &[u8], a: usize, other: &[u8], b: usize) -> usize
    ensures { AlikeTo C.holds text.now a other.now b result }
{
    let most = room(text, a, other, b);
    if most < 8 {
        return 0;
    }
    let last = most - 8;
    let mut k: usize = 0;
    while k <= last {
        let run = alike_bytes::<C>(eight(text, a + k), eight(other, b + k));
        if run < 8 {
            let to = k + run;
            return to;
        }
        k += 8;
    }
    k
}

// Does a byte stand for itself, in a part of a pointer too?
pub fn is_own_byte(b: u16) -> bool
    ensures { Told (Own b) result }
{
    OwnByte::has(b)
}

// How many bytes stand alike from two places on and are in a class, up to the first that isn't so. The class is asked first: a byte in it
// is no end of the first text, which then need not be asked for again.
pub fn alike_from<C: Class>(text: &[u8], a: usize, other: &[u8], b: usize) -> usize
    ensures { AlikeRun C.holds text.now a other.now b result }
{
    let mut k = C::alike_start(text, a, other, b);
    loop {
        let p = peek(text, a + k);
        if !C::has(p) {
            return k;
        }
        if p != peek(other, b + k) {
            return k;
        }
        k += 1;
    }
}

// How many plain bytes stand alike from two places on. Where the eights stop a difference is found at once.
pub fn alike_plain_from(text: &[u8], a: usize, other: &[u8], b: usize) -> usize
    ensures { AlikeRun Plain text.now a other.now b result }
{
    alike_from::<PlainByte>(text, a, other, b)
}

// How many bytes stand alike that are plain and neither slashes nor tildes.
pub fn alike_own_from(text: &[u8], a: usize, other: &[u8], b: usize) -> usize
    ensures { AlikeRun Own text.now a other.now b result }
{
    alike_from::<OwnByte>(text, a, other, b)
}

#[cfg(test)]
mod tests {
    use super::*;
    use std::test::Fail;

    fn told(right: bool, what: &'static str) -> Result<(), &'static str> {
        if right { Ok(()) } else { Err(what) }
    }

    // So many of eight bytes, from the first on, are in a class: those below the lowest mark.
    fn at_once<C: Marked>(bytes: &[u8; 8]) -> usize {
        (u64::trailing_zeros(C::marks(u64::from_le_bytes(*bytes))) / 8) as usize
    }

    // And those before the first that is told not to be in it.
    fn one_by_one<C: Marked>(bytes: &[u8; 8]) -> usize {
        for (i, b) in bytes.iter().enumerate() {
            if !C::has(*b as u16) {
                return i;
            }
        }
        8
    }

    #[test]
    fn eight_bytes_are_told_at_once() -> Result<(), Fail> {
        for (bytes, plain, own) in [
            (b"abcdefgh", 8, 8),
            (b"emails/e", 8, 6),
            (b"a~b/c\"de", 5, 1),
            (b"\\u0041bc", 0, 0),
            (b"Z\xC3\xBCrich!", 1, 1),
            (b"line\nfed", 4, 4),
        ] {
            told(at_once::<PlainByte>(bytes) == plain, "plain, at once")?;
            told(at_once::<OwnByte>(bytes) == own, "own, at once")?;
            told(one_by_one::<PlainByte>(bytes) == plain, "plain, one by one")?;
            told(one_by_one::<OwnByte>(bytes) == own, "own, one by one")?;
        }
        Ok(())
    }
}
