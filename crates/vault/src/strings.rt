// What a field holds (docs/RULES.md, 10): whether it is a text or a number, and how a text is spelled.
ghost use Rattle.std.specs.Prelude.{◌≡◌, ◌≤◌, length};
ghost use Rattle.text.specs.Writing.{spelled};
ghost use Rattle.output.specs.Written.{Wrote};
ghost use Rattle.text.specs.Tokens.{digits_at, sign_end, then_at, frac_at, exp_at};
ghost use Rattle.packing.specs.Fields.{is_text, ends_at, is_number};
ghost use Rattle.vault.specs.Strings.{char_end, OwnRun, spelled_at};

use json_reader::bytes::{LARGE_E, SMALL_E, peek};
use json_reader::chars::raw_at;
use json_reader::tokens::{digits, frac, int, minus_end, sign_end};
use output::put::{put_byte, put_run, put_spelled_byte};
use text::Fault;

// The place behind the character at a place, where one stands.
fn char_end(content: &[u8], at: usize) -> Option<usize>
    ensures { result ≡ char_end content.now at }
{
    let b = peek(content, at);
    if b < 0x80 {
        return Some(at + 1);
    }
    match raw_at(content, at) {
        Ok(Some((_, len))) => Some(at + len),
        Ok(None) => None,
        Err(_) => None,
    }
}

// Are the bytes UTF-8 of characters that a string may hold?
pub(crate) fn is_text(content: &[u8]) -> bool
    ensures { result ≡ is_text content.now }
{
    let mut at = 0;
    while at < content.len() {
        let Some(next) = char_end(content, at) else {
            return false;
        };
        at = next;
    }
    true
}

// Does a sign, or none, and then digits end where the content ends?
fn ends_digits(content: &[u8], at: usize) -> bool
    ensures { result ≡ ends_at (length content.now) (digits_at content.now (sign_end content.now at)) }
{
    match digits(content, sign_end(content, at)) {
        Ok(to) => to == content.len(),
        Err(_) => false,
    }
}

// The same of an exponent, or none.
fn ends_exponent(content: &[u8], at: usize) -> bool
    ensures { result ≡ ends_at (length content.now) (exp_at content.now at) }
{
    let b = peek(content, at);
    if b == SMALL_E || b == LARGE_E {
        return ends_digits(content, at + 1);
    }
    at == content.len()
}

// The same of a fraction, or none, and then an exponent.
fn ends_fraction(content: &[u8], at: usize) -> bool
    ensures { result ≡ ends_at (length content.now) (then_at (exp_at content.now) (frac_at content.now at)) }
{
    match frac(content, at) {
        Ok(to) => ends_exponent(content, to),
        Err(_) => false,
    }
}

// Are they one number, and nothing else? By its parts: reading's own functions of a number and of an exponent are called in one place, and so become part of the
// reader.
pub(crate) fn is_number(content: &[u8]) -> bool
    ensures { result ≡ is_number content.now }
{
    match int(content, minus_end(content, 0)) {
        Ok(to) => ends_fraction(content, to),
        Err(_) => false,
    }
}

// How many bytes at the start stand for themselves in a string.
fn own_len(rest: &[u8]) -> usize
    ensures { OwnRun rest.now result }
{
    rest.iter()
        .position(|b| *b < b' ' || *b == b'"' || *b == b'\\')
        .unwrap_or(rest.len())
}

// The byte at a place, escaped or not, where there is one.
fn put_spelled_at(content: &[u8], i: usize, out: &mut [u8], at: usize) -> usize
    ensures { Wrote out.old at (spelled_at content.now i) out.new result }
{
    if i < content.len() {
        return put_spelled_byte(content[i], out, at);
    }
    at
}

// A string with this content, between quotes: what stands for itself, mostly all of it, run by run.
pub(crate) fn put_string(content: &[u8], out: &mut [u8], at: usize) -> usize
    ensures { Wrote out.old at (spelled content.now) out.new result }
{
    let mut p = put_byte(out, at, b'"');
    let mut i = 0;
    while i < content.len() {
        let e = i + own_len(&content[i..]);
        p = put_run(content, i, e, out, p);
        p = put_spelled_at(content, e, out, p);
        i = e + 1;
    }
    put_byte(out, p, b'"')
}
