// White space, and the tokens of the values that hold no others: literals, numbers, strings (docs/RULES.md, 3.2).
ghost use Rattle.std.specs.Prelude.{◌≡◌, ◌≤◌, length};
ghost use Rattle.text.specs.Text.{byte_at};
ghost use Rattle.text.specs.Tokens as tokens;
ghost use Rattle.json_reader.specs.Readers.{more_by};

use crate::bytes::{
    BEHIND_NINE, LARGE_E, LINE_FEED, MINUS, NINE, OPEN_ARRAY, OPEN_OBJECT, OVER, PLUS, POINT,
    QUOTE, RETURN, SMALL_E, SMALL_F, SMALL_N, SMALL_T, SPACE, TAB, ZERO, peek,
};
use crate::rows::{ARRAY, FALSE, NULL, NUMBER, OBJECT, STRING, TRUE};
use crate::strings::string_end;
use text::Fault;

// Is a byte white space?
pub fn is_space(b: u16) -> bool
    ensures { result ≡ tokens.is_space b }
{
    if b == SPACE {
        return true;
    }
    if SPACE < b {
        return false;
    }
    if b == TAB {
        return true;
    }
    if b == LINE_FEED {
        return true;
    }
    b == RETURN
}

// Does white space stand at a place?
fn space_at(text: &[u8], at: usize) -> bool
    ensures { result ≡ tokens.is_space (byte_at text.now at) }
{
    is_space(peek(text, at))
}

// Does a digit stand at a place?
fn digit_at(text: &[u8], at: usize) -> bool
    ensures { result ≡ tokens.is_digit (byte_at text.now at) }
{
    let b = peek(text, at);
    if b < ZERO {
        return false;
    }
    b < BEHIND_NINE
}

// The place after the white space from a place on.
pub fn skip(text: &[u8], from: usize) -> usize
    ensures { result ≡ tokens.skip text.now from }
{
    let mut at = from;
    while space_at(text, at) {
        at += 1;
    }
    at
}

// The place after the digits from a place on.
pub fn digits_end(text: &[u8], from: usize) -> usize
    ensures { result ≡ tokens.digits_end text.now from }
{
    let mut at = from;
    while digit_at(text, at) {
        at += 1;
    }
    at
}

// A literal: the bytes of its word.
fn literal(text: &[u8], lit: &[u8], from: usize) -> Result<usize, Fault<usize>>
    ensures { result ≡ tokens.word_at text.now lit.now from }
{
    let mut at = from;
    let mut i: usize = 0;
    loop {
        let want = peek(lit, i);
        if want == OVER {
            return Ok(at);
        }
        let b = peek(text, at);
        if b != want {
            return Err(Fault::Malformed(at));
        }
        at += 1;
        i += 1;
    }
}

// One digit or more.
pub fn digits(text: &[u8], at: usize) -> Result<usize, Fault<usize>>
    ensures { result ≡ tokens.digits_at text.now at }
{
    if digit_at(text, at) {
        return Ok(digits_end(text, at + 1));
    }
    Err(Fault::Malformed(at))
}

// The place after a minus, if there is one.
pub fn minus_end(text: &[u8], at: usize) -> usize
    ensures { result ≡ tokens.minus_end text.now at }
{
    if peek(text, at) == MINUS { at + 1 } else { at }
}

// A number's whole part: a zero, or digits that start with no zero.
pub fn int(text: &[u8], at: usize) -> Result<usize, Fault<usize>>
    ensures { result ≡ tokens.int_at text.now at }
{
    if peek(text, at) == ZERO {
        return Ok(at + 1);
    }
    digits(text, at)
}

// A number's fraction, if there is one.
pub fn frac(text: &[u8], at: usize) -> Result<usize, Fault<usize>>
    ensures { result ≡ tokens.frac_at text.now at }
{
    if peek(text, at) == POINT {
        return digits(text, at + 1);
    }
    Ok(at)
}

// The place after a sign of the exponent, if there is one.
pub fn sign_end(text: &[u8], at: usize) -> usize
    ensures { result ≡ tokens.sign_end text.now at }
{
    let b = peek(text, at);
    if b == MINUS {
        return at + 1;
    }
    if b == PLUS {
        return at + 1;
    }
    at
}

// A number's exponent, if there is one.
fn exp(text: &[u8], at: usize) -> Result<usize, Fault<usize>>
    ensures { result ≡ tokens.exp_at text.now at }
{
    let b = peek(text, at);
    if b == SMALL_E {
        return digits(text, sign_end(text, at + 1));
    }
    if b == LARGE_E {
        return digits(text, sign_end(text, at + 1));
    }
    Ok(at)
}

// Does a fraction or an exponent stand at a place? Most numbers have neither.
fn more_at(text: &[u8], at: usize) -> bool
    ensures { result ≡ more_by (byte_at text.now at) }
{
    let b = peek(text, at);
    if b == POINT {
        return true;
    }
    if b == SMALL_E {
        return true;
    }
    b == LARGE_E
}

// A number: a minus or none, its whole part, its fraction and its exponent.
fn number(text: &[u8], at: usize) -> Result<usize, Fault<usize>>
    ensures { result ≡ tokens.number_at text.now at }
{
    let point = int(text, minus_end(text, at))?;
    if !more_at(text, point) {
        return Ok(point);
    }
    let e = frac(text, point)?;
    exp(text, e)
}

// The kind that a first byte begins, or 0.
pub(crate) fn kind_of(b: u16) -> usize
    ensures { result ≡ tokens.kind_by b }
{
    match b {
        SMALL_N => NULL,
        SMALL_F => FALSE,
        SMALL_T => TRUE,
        MINUS => NUMBER,
        QUOTE => STRING,
        OPEN_ARRAY => ARRAY,
        OPEN_OBJECT => OBJECT,
        ZERO..=NINE => NUMBER,
        _ => 0,
    }
}

// The token of a kind from NULL to STRING whose first byte stands at a place.
pub(crate) fn token_end(text: &[u8], kind: usize, at: usize) -> Result<usize, Fault<usize>>
    requires { at ≤ length text.now }
    ensures { result ≡ tokens.token_at text.now kind at }
{
    match kind {
        NULL => literal(text, b"null", at),
        FALSE => literal(text, b"false", at),
        TRUE => literal(text, b"true", at),
        NUMBER => number(text, at),
        _ => string_end(text, at + 1),
    }
}
