// What a byte does inside a string.
ghost use Rattle.std.specs.Prelude.{◌≡◌};
ghost use Rattle.wire.specs.declared.Inner.TheVariants.{Plain, Escape, Four, Pair, PairU, Low1, Low2, Low3, Low4, Second3, Second4, Tails};
ghost use Rattle.wire.specs.Inners.{checked, unit_move, hex_move, tail_move, move3, move4, lead_move, move_of};

use code_points::{is_character, tail};
use json_reader::bytes::{BACKSLASH, QUOTE, SMALL_U};
use json_reader::chars::{digit, letter};
use text::Fault;
use wire::Inner;

// A character is complete.
fn check(from: u32, code: u32) -> Result<Option<Inner>, Fault<u32>>
    ensures { result ≡ checked from code }
{
    if is_character(code) {
        Ok(Some(Inner::Plain))
    } else {
        Err(Fault::Forbidden(from))
    }
}

// A \u escape is complete.
fn unit(from: u32, u: u32) -> Result<Option<Inner>, Fault<u32>>
    ensures { result ≡ unit_move from u }
{
    if u < 0xD800 {
        return check(from, u);
    }
    if u < 0xDC00 {
        return Ok(Some(Inner::Pair(from, u)));
    }
    check(from, u)
}

// One digit more of a \u escape.
fn one_digit(from: u32, left: u32, u: u32) -> Result<Option<Inner>, Fault<u32>>
    ensures { result ≡ hex_move from left u }
{
    if left == 0 {
        return unit(from, u);
    }
    let fewer = left - 1;
    Ok(Some(Inner::Four(from, fewer, u)))
}

// One continuation byte more.
fn one_tail(from: u32, left: u32, c: u32) -> Result<Option<Inner>, Fault<u32>>
    ensures { result ≡ tail_move from left c }
{
    if left == 0 {
        return check(from, c);
    }
    let fewer = left - 1;
    Ok(Some(Inner::Tails(from, fewer, c)))
}

// The second byte of a sequence of three.
fn after3(from: u32, c: u32) -> Result<Option<Inner>, Fault<u32>>
    ensures { result ≡ move3 from c }
{
    if c < 32 {
        return Err(Fault::Forbidden(from));
    }
    if c < 864 {
        return Ok(Some(Inner::Tails(from, 0, c)));
    }
    if c < 896 {
        return Err(Fault::Forbidden(from));
    }
    Ok(Some(Inner::Tails(from, 0, c)))
}

// The second byte of a sequence of four.
fn after4(from: u32, c: u32) -> Result<Option<Inner>, Fault<u32>>
    ensures { result ≡ move4 from c }
{
    if c < 16 {
        return Err(Fault::Forbidden(from));
    }
    if c < 272 {
        return Ok(Some(Inner::Tails(from, 1, c)));
    }
    Err(Fault::Forbidden(from))
}

// The first byte of a sequence, 128 or more.
fn lead(at: u32, b: u16) -> Result<Option<Inner>, Fault<u32>>
    ensures { result ≡ lead_move at b }
{
    if b < 194 {
        return Err(Fault::Forbidden(at));
    }
    if b < 224 {
        return Ok(Some(Inner::Tails(at, 0, (b % 32) as u32)));
    }
    if b < 240 {
        return Ok(Some(Inner::Second3(at, (b % 16) as u32)));
    }
    if b < 245 {
        return Ok(Some(Inner::Second4(at, (b % 8) as u32)));
    }
    Err(Fault::Forbidden(at))
}

// Between two characters.
fn plain(at: u32, b: u16) -> Result<Option<Inner>, Fault<u32>>
    ensures { result ≡ move_of at Plain b }
{
    if b == QUOTE {
        return Ok(None);
    }
    if b == BACKSLASH {
        return Ok(Some(Inner::Escape(at)));
    }
    if b < 32 {
        return Err(Fault::Malformed(at));
    }
    if b < 128 {
        return Ok(Some(Inner::Plain));
    }
    if b < 256 {
        return lead(at, b);
    }
    Err(Fault::Malformed(at))
}

// After a backslash.
fn escape(at: u32, from: u32, b: u16) -> Result<Option<Inner>, Fault<u32>>
    ensures { result ≡ move_of at (Escape from) b }
{
    if b == SMALL_U {
        return Ok(Some(Inner::Four(from, 3, 0)));
    }
    let l = letter(b);
    if l == 0 {
        return Err(Fault::Malformed(at));
    }
    Ok(Some(Inner::Plain))
}

// In a \u escape.
fn four(at: u32, from: u32, left: u32, v: u32, b: u16) -> Result<Option<Inner>, Fault<u32>>
    ensures { result ≡ move_of at (Four from left v) b }
{
    let d = digit(b);
    if d == 16 {
        return Err(Fault::Malformed(at));
    }
    one_digit(from, left, v % 4096 * 16 + d)
}

// After a complete high surrogate escape.
fn pair(at: u32, from: u32, high: u32, b: u16) -> Result<Option<Inner>, Fault<u32>>
    ensures { result ≡ move_of at (Pair from high) b }
{
    if b == BACKSLASH {
        return Ok(Some(Inner::PairU(from, high)));
    }
    Err(Fault::Forbidden(from))
}

// And a backslash.
fn pair_u(at: u32, from: u32, high: u32, b: u16) -> Result<Option<Inner>, Fault<u32>>
    ensures { result ≡ move_of at (PairU from high) b }
{
    if b == SMALL_U {
        return Ok(Some(Inner::Low1(from, high)));
    }
    Err(Fault::Forbidden(from))
}

// And a u: the first digit must be D.
fn low1(at: u32, from: u32, high: u32, b: u16) -> Result<Option<Inner>, Fault<u32>>
    ensures { result ≡ move_of at (Low1 from high) b }
{
    let d = digit(b);
    if d == 13 {
        return Ok(Some(Inner::Low2(from, high)));
    }
    Err(Fault::Forbidden(from))
}

// The second digit must be C to F.
fn low2(at: u32, from: u32, high: u32, b: u16) -> Result<Option<Inner>, Fault<u32>>
    ensures { result ≡ move_of at (Low2 from high) b }
{
    let d = digit(b);
    if d < 12 {
        return Err(Fault::Forbidden(from));
    }
    if d == 16 {
        return Err(Fault::Forbidden(from));
    }
    let v = d - 12;
    Ok(Some(Inner::Low3(from, high, v)))
}

// The third digit.
fn low3(at: u32, from: u32, high: u32, v: u32, b: u16) -> Result<Option<Inner>, Fault<u32>>
    ensures { result ≡ move_of at (Low3 from high v) b }
{
    let d = digit(b);
    if d == 16 {
        return Err(Fault::Forbidden(from));
    }
    let w = v % 64 * 16 + d;
    Ok(Some(Inner::Low4(from, high, w)))
}

// The fourth digit.
fn low4(at: u32, from: u32, high: u32, v: u32, b: u16) -> Result<Option<Inner>, Fault<u32>>
    ensures { result ≡ move_of at (Low4 from high v) b }
{
    let d = digit(b);
    if d == 16 {
        return Err(Fault::Forbidden(from));
    }
    check(from, 65536 + high % 1024 * 1024 + (v % 64 * 16 + d))
}

// The second byte of three.
fn second3(at: u32, from: u32, c: u32, b: u16) -> Result<Option<Inner>, Fault<u32>>
    ensures { result ≡ move_of at (Second3 from c) b }
{
    let x = tail(b);
    if 63 < x {
        return Err(Fault::Forbidden(from));
    }
    after3(from, c % 65536 * 64 + x)
}

// The second byte of four.
fn second4(at: u32, from: u32, c: u32, b: u16) -> Result<Option<Inner>, Fault<u32>>
    ensures { result ≡ move_of at (Second4 from c) b }
{
    let x = tail(b);
    if 63 < x {
        return Err(Fault::Forbidden(from));
    }
    after4(from, c % 65536 * 64 + x)
}

// A later byte of a sequence.
fn tails(at: u32, from: u32, left: u32, c: u32, b: u16) -> Result<Option<Inner>, Fault<u32>>
    ensures { result ≡ move_of at (Tails from left c) b }
{
    let x = tail(b);
    if 63 < x {
        return Err(Fault::Forbidden(from));
    }
    one_tail(from, left, c % 65536 * 64 + x)
}

// What the byte at a place does, 256 at the end of the text.
pub(crate) fn step(at: u32, s: Inner, b: u16) -> Result<Option<Inner>, Fault<u32>>
    ensures { result ≡ move_of at s b }
{
    match s {
        Inner::Plain => plain(at, b),
        Inner::Escape(from) => escape(at, from, b),
        Inner::Four(from, left, v) => four(at, from, left, v, b),
        Inner::Pair(from, high) => pair(at, from, high, b),
        Inner::PairU(from, high) => pair_u(at, from, high, b),
        Inner::Low1(from, high) => low1(at, from, high, b),
        Inner::Low2(from, high) => low2(at, from, high, b),
        Inner::Low3(from, high, v) => low3(at, from, high, v, b),
        Inner::Low4(from, high, v) => low4(at, from, high, v, b),
        Inner::Second3(from, c) => second3(at, from, c, b),
        Inner::Second4(from, c) => second4(at, from, c, b),
        Inner::Tails(from, left, c) => tails(at, from, left, c, b),
    }
}
