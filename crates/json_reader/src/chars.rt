// What stands at a place inside a string (docs/RULES.md, 3.4): one step, used by reading; decoding uses its escapes.
ghost use Rattle.std.specs.Prelude.{◌≡◌, ◌+◌, ◌<◌, ◌≤◌, length, cond, eqb, Ok, Err};
ghost use Rattle.text.specs.Text.{byte_at};
ghost use Rattle.text.specs.Chars.{digit_of, digit_at, hex4_at, letter_of, tail_at, raw_at, pair_at, unit_at, escape_at, step_at};

use crate::bytes::{
    BACKSLASH, LARGE_A, LARGE_F, LARGE_TEN, NINE, OVER, QUOTE, SLASH, SMALL_A, SMALL_B, SMALL_F,
    SMALL_N, SMALL_O, SMALL_R, SMALL_T, SMALL_TEN, SMALL_U, SPACE, ZERO, peek,
};
use code_points::{checked, code2, code3, code4, tail};
use text::Fault;

// The code points that short escapes stand for.
const QUOTE_CODE: u32 = b'"' as u32;

const SLASH_CODE: u32 = b'/' as u32;

const BACKSLASH_CODE: u32 = b'\\' as u32;

const BACKSPACE_CODE: u32 = 8;

const FORM_FEED_CODE: u32 = 12;

const LINE_FEED_CODE: u32 = b'\n' as u32;

const RETURN_CODE: u32 = b'\r' as u32;

const TAB_CODE: u32 = b'\t' as u32;

// The value of a hexadecimal digit, or 16.
pub fn digit(b: u16) -> u32
    ensures { result ≡ digit_of b }
{
    match b {
        ZERO..=NINE => (b - ZERO) as u32,
        LARGE_A..=LARGE_F => (b - LARGE_TEN) as u32,
        SMALL_A..=SMALL_F => (b - SMALL_TEN) as u32,
        _ => 16,
    }
}

// The digit at a place, or that place where none stands.
fn hex_at(text: &[u8], at: usize) -> Result<u32, usize>
    ensures { result ≡ cond (eqb (digit_at text.now at) 16) (Err at) (Ok (digit_at text.now at)) }
{
    match digit(peek(text, at)) {
        16 => Err(at),
        d => Ok(d),
    }
}

// The four digits from a place on, as a number, or the place of the first that is none.
fn hex4(text: &[u8], at: usize) -> Result<u32, usize>
    requires { at ≤ length text.now + 8 }
    ensures { result ≡ hex4_at text.now at }
{
    let a = hex_at(text, at)?;
    let b = hex_at(text, at + 1)?;
    let c = hex_at(text, at + 2)?;
    let d = hex_at(text, at + 3)?;
    Ok(a % 16 * 4096 + b % 16 * 256 + c % 16 * 16 + d % 16)
}

// What the letter of a short escape stands for, or 0. No `match`: that becomes a jump through a table, which costs more than these tests.
pub fn letter(b: u16) -> u32
    ensures { result ≡ letter_of b }
{
    if b < SMALL_B {
        if b == QUOTE {
            return QUOTE_CODE;
        }
        if b == SLASH {
            return SLASH_CODE;
        }
        if b == BACKSLASH {
            return BACKSLASH_CODE;
        }
        return 0;
    }
    if b < SMALL_O {
        if b == SMALL_B {
            return BACKSPACE_CODE;
        }
        if b == SMALL_F {
            return FORM_FEED_CODE;
        }
        if b == SMALL_N {
            return LINE_FEED_CODE;
        }
        return 0;
    }
    if b == SMALL_R {
        return RETURN_CODE;
    }
    if b == SMALL_T {
        return TAB_CODE;
    }
    0
}

// The six bits of the continuation byte at a place, or 64.
fn tail_at(text: &[u8], at: usize) -> u32
    ensures { result ≡ tail_at text.now at }
{
    tail(peek(text, at))
}

// A raw character of several bytes, with the first byte b. It becomes part of the loops that ask for it: a call hands its answer over by memory, which takes as
// long as all else.
#[inline(always)]
fn raw(text: &[u8], at: usize, b: u16) -> Result<Option<(u32, usize)>, Fault<usize>>
    requires { at < length text.now }
    ensures { result ≡ raw_at text.now at b }
{
    if b < 0xC0 {
        return Err(Fault::Forbidden(at));
    }
    let x = tail_at(text, at + 1);
    if b < 0xE0 {
        return checked(at, code2(b, x), 2);
    }
    let y = tail_at(text, at + 2);
    if b < 0xF0 {
        return checked(at, code3(b, x, y), 3);
    }
    let z = tail_at(text, at + 3);
    if b < 0xF8 {
        return checked(at, code4(b, x, y, z), 4);
    }
    Err(Fault::Forbidden(at))
}

// The raw character of several bytes at a place; 3 where none stands, past the end too.
pub fn raw_at(text: &[u8], at: usize) -> Result<Option<(u32, usize)>, Fault<usize>>
    ensures { result ≡ raw_at text.now at (byte_at text.now at) }
{
    let b = peek(text, at);
    if b == OVER {
        return Err(Fault::Forbidden(at));
    }
    raw(text, at, b)
}

// The escape at `at` of a high surrogate: a low one has to follow at once.
fn pair(text: &[u8], at: usize, high: u32) -> Result<Option<(u32, usize)>, Fault<usize>>
    requires { at < length text.now }
    ensures { result ≡ pair_at text.now at high }
{
    if peek(text, at + 6) != BACKSLASH {
        return Err(Fault::Forbidden(at));
    }
    if peek(text, at + 7) != SMALL_U {
        return Err(Fault::Forbidden(at));
    }
    let Ok(low) = hex4(text, at + 8) else {
        return Err(Fault::Forbidden(at));
    };
    if low < 0xDC00 {
        return Err(Fault::Forbidden(at));
    }
    if low < 0xE000 {
        return checked(at, 65536 + high % 1024 * 1024 + low % 1024, 12);
    }
    Err(Fault::Forbidden(at))
}

// The escape at `at` with the value u.
fn unit(text: &[u8], at: usize, u: u32) -> Result<Option<(u32, usize)>, Fault<usize>>
    requires { at < length text.now }
    ensures { result ≡ unit_at text.now at u }
{
    if u < 0xD800 {
        return checked(at, u, 6);
    }
    if u < 0xDC00 {
        return pair(text, at, u);
    }
    checked(at, u, 6)
}

// The escape whose backslash stands at `at`. It becomes part of the loops that ask for it, as `raw` does.
#[inline(always)]
pub(crate) fn escape(text: &[u8], at: usize) -> Result<Option<(u32, usize)>, Fault<usize>>
    requires { at < length text.now }
    ensures { result ≡ escape_at text.now at }
{
    let b = peek(text, at + 1);
    if b == SMALL_U {
        return match hex4(text, at + 2) {
            Ok(u) => unit(text, at, u),
            Err(p) => Err(Fault::Malformed(p)),
        };
    }
    let code = letter(b);
    if code == 0 {
        return Err(Fault::Malformed(at + 1));
    }
    Ok(Some((code, 2)))
}

// What stands at a place inside a string, after the opening quote.
pub(crate) fn step_at(text: &[u8], at: usize) -> Result<Option<(u32, usize)>, Fault<usize>>
    ensures { result ≡ step_at text.now at }
{
    let b = peek(text, at);
    if b == QUOTE {
        return Ok(None);
    }
    if b == BACKSLASH {
        return escape(text, at);
    }
    if b < SPACE {
        return Err(Fault::Malformed(at));
    }
    if b < 0x80 {
        return Ok(Some((b as u32, 1)));
    }
    if b < OVER {
        return raw(text, at, b);
    }
    Err(Fault::Malformed(at))
}
