// A string's decoded bytes (docs/RULES.md, 3.4), handed out one at a time; nothing is copied.
ghost use Rattle.std.specs.Prelude.{◌≡◌, ℕ, List, ◌++◌};
ghost use Rattle.std.specs.Iterator.{YieldsFirst, item_count};
ghost use Rattle.text.specs.Utf8.{utf8};
ghost use Rattle.text.specs.Strings.{decode_from};
ghost use Rattle.json_reader.specs.Cursors.{cursor, rest, unread, first_of, fresh_of, next_of};

use crate::bytes::{BACKSLASH, OVER, peek};
use crate::chars::escape;

// A place in a string's inner bytes, and the continuation bytes (at most three) of the code point `code` that are still to be handed out.
#[derive(Clone, Copy)]
pub struct Cursor {
    pub at: usize,
    pub code: u32,
    pub left: u8,
}

// A cursor at a place where a character begins.
pub fn cursor_at(at: usize) -> Cursor
    ensures { result ≡ cursor at 0 0 }
{
    Cursor {
        at,
        code: 0,
        left: 0,
    }
}

// A cursor at the start of a string's inner bytes.
pub fn start() -> Cursor
    ensures { result ≡ cursor 0 0 0 }
{
    cursor_at(0)
}

// The first byte of a code point; the cursor goes on after it, and then at `at`. Here and below: a call hands its answer over by memory,
// and the cursor has to be put together anew for the next one, which takes longest. So these become part of the loops that ask.
#[inline(always)]
fn first_byte(code: u32, at: usize) -> Option<(u8, Cursor)>
    ensures by_index { (t : List ℕ) → unread t result ≡ utf8 code ++ decode_from t at }
    ensures is { result ≡ first_of code at }
{
    if code < 128 {
        return Some((code as u8, Cursor { at, code, left: 0 }));
    }
    if code < 2048 {
        return Some(((192 + code / 64 % 32) as u8, Cursor { at, code, left: 1 }));
    }
    if code < 65536 {
        return Some(((224 + code / 4096 % 16) as u8, Cursor { at, code, left: 2 }));
    }
    Some((
        (240 + code / 262144 % 8) as u8,
        Cursor { at, code, left: 3 },
    ))
}

// The byte at a place where a character begins.
#[inline(always)]
fn fresh_byte(name: &[u8], at: usize) -> Option<(u8, Cursor)>
    ensures result_value { unread name.now result ≡ decode_from name.now at }
    ensures is { result ≡ fresh_of name.now at }
{
    let b = peek(name, at);
    if b == OVER {
        return None;
    }
    if b != BACKSLASH {
        return Some((
            b as u8,
            Cursor {
                at: at + 1,
                code: 0,
                left: 0,
            },
        ));
    }
    match escape(name, at) {
        Ok(Some((code, len))) => first_byte(code, at + len),
        Ok(None) => None,
        Err(_) => None,
    }
}

// The next decoded byte.
#[inline(always)]
pub fn next_byte(name: &[u8], c: Cursor) -> Option<(u8, Cursor)>
    ensures result_value { unread name.now result ≡ rest name.now c }
    ensures is { result ≡ next_of name.now c }
{
    match c.left {
        0 => fresh_byte(name, c.at),
        1 => Some(((128 + c.code % 64) as u8, Cursor { left: 0, ..c })),
        2 => Some(((128 + c.code / 64 % 64) as u8, Cursor { left: 1, ..c })),
        _ => Some(((128 + c.code / 4096 % 64) as u8, Cursor { left: 2, ..c })),
    }
}

// What is left of a string at a cursor, decoded.
#[derive(Drop)]
pub struct Decoded<'a> {
    pub name: &'a [u8],
    pub at: Cursor,
}

impl<'a> Iterator for Decoded<'a> {
    type Item = u8;

    ghost next_gives = { YieldsFirst (λ s. rest s.name.now s.at) };

    ghost remaining = { item_count (λ s. rest s.name.now s.at) };

    #[inline(always)]
    fn next(&mut self) -> Option<u8> {
        let (b, on) = next_byte(self.name, self.at)?;
        self.at = on;
        Some(b)
    }
}
