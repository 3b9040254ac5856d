// Keys of a PatchObject as pointers (docs/RULES.md, 6.2 and 6.4): a bad tilde, the first part, prefixes, and the order in which they are sorted.
ghost use Rattle.std.specs.Prelude.{◌≡◌};
ghost use Rattle.laws.specs.Order.{same};
ghost use Rattle.text.specs.Strings.{decode};
ghost use Rattle.text.specs.Text.{bytes};
ghost use Rattle.json_reader.specs.Cursors.{rest, cursor};
ghost use Rattle.json_reader.specs.Names.{Raw};
ghost use Rattle.contact.specs.Pointer.{pointer_of, bad_tilde, zero_or_one, first_part, clash};
ghost use Rattle.pointers.specs.Parts.{GoesAt, CrossesTo};
ghost use Rattle.pointers.specs.Pointers.{pointer_order, is_coded, tells, pointer_from, AlikeKeys, ends_before, rank_of};

use crate::parts::{
    Name, Part, is_short, left, next_part, part_order, part_same, past_written, written_end,
};
use json_reader::bytes::{BACKSLASH, OVER, SLASH, TILDE, peek};
use json_reader::decode::{Cursor, cursor_at, next_byte, start};
use json_reader::names::{RawByte, order_at};
use json_reader::plain::{Class, alike_from, alike_plain_from};
use std::cmp::Ordering;

// Is the next byte `0` or `1`?
fn zero_or_one(key: &[u8], c: Cursor) -> bool
    ensures { result ≡ zero_or_one (rest key.now c) }
{
    let Some((b, _)) = next_byte(key, c) else {
        return false;
    };
    b == b'0' || b == b'1'
}

// 22: does the key have a `~` that neither `0` nor `1` follows?
pub fn has_bad_tilde(key: &[u8]) -> bool
    ensures { result ≡ bad_tilde (decode key.now) }
{
    let mut c = start();
    loop {
        let Some((b, on)) = next_byte(key, past_written(key, c, TILDE)) else {
            return false;
        };
        if b == b'~' && !zero_or_one(key, on) {
            return true;
        }
        c = on;
    }
}

// 23: is the first part `localizations`?
pub fn is_own(key: &[u8]) -> bool
    ensures { result ≡ same (first_part (pointer_of (decode key.now))) (bytes "localizations") }
{
    part_same(left(key, start()), left::<Name>(b"localizations", start()))
}

// Bytes of a key that mean nothing but themselves, as in any string (`RawByte`).
struct KeyByte;

impl Class for KeyByte {
    ghost holds = { Raw };

    ghost within = { λ b raw. raw.byte };

    fn has(b: u16) -> bool {
        RawByte::has(b)
    }

    // Plain bytes are told eight at a time. Short keys aren't asked: to ask would take longer.
    fn alike_start(text: &[u8], a: usize, other: &[u8], b: usize) -> usize {
        if is_short(text, a) || is_short(other, b) {
            return 0;
        }
        alike_plain_from(text, a, other, b)
    }
}

// Bytes that two keys begin with alike so that what is left decides. A tilde at the end of these is left, to be read with what follows: it is the second byte of
// no `~0` or `~1`, so a character begins there.
fn alike_keys(a: &[u8], b: &[u8]) -> usize
    ensures { AlikeKeys a.now b.now result }
{
    let k = alike_from::<KeyByte>(a, 0, b, 0);
    if k == 0 {
        return 0;
    }
    let last = k - 1;
    if peek(a, last) == TILDE {
        return last;
    }
    k
}

// Must a byte be looked at together with the next ones: is it a tilde or a backslash?
fn is_coded(b: u16) -> bool
    ensures { result ≡ is_coded b }
{
    b == TILDE || b == BACKSLASH
}

// Do two bytes differ, and is neither of them one of these?
fn tells(x: u16, y: u16) -> bool
    ensures { result ≡ tells x y }
{
    x != y && !is_coded(x) && !is_coded(y)
}

// Where two such bytes stand, is one pointer over and does the other go on with a part?
fn ends_before(x: u16, y: u16) -> bool
    ensures { result ≡ ends_before x y }
{
    matches!((x, y), (OVER, SLASH) | (SLASH, OVER))
}

// 24: is one a prefix of the other, over whole parts? Told by the first difference if it can be.
pub fn clashes(a: &[u8], b: &[u8]) -> bool
    ensures { result ≡ clash (pointer_of (decode a.now)) (pointer_of (decode b.now)) }
{
    let k = alike_keys(a, b);
    let x = peek(a, k);
    let y = peek(b, k);
    if tells(x, y) {
        return ends_before(x, y);
    }
    parts_clash(a, b, k)
}

// The same part by part, of what is left of the keys at a place.
fn parts_clash(a: &[u8], b: &[u8], from: usize) -> bool
    ensures { result ≡ clash (pointer_from a.now from) (pointer_from b.now from) }
{
    let mut x = cursor_at(from);
    let mut y = cursor_at(from);
    loop {
        if !part_same(left(a, x), left::<Part>(b, y)) {
            return false;
        }
        let Some(x2) = next_part(a, x) else {
            return true;
        };
        let Some(y2) = next_part(b, y) else {
            return true;
        };
        x = x2;
        y = y2;
    }
}

// Where a byte stands in the order of pointers: the end of a part before all others. The end of a key, which comes first, stays.
fn rank(b: u16) -> u16
    ensures { result ≡ rank_of b }
{
    match b {
        0..SLASH => b + 1,
        SLASH => 0,
        _ => b,
    }
}

// The order of two pointers: part by part; one that ends stands before those that go on. Told by the first difference if it can be.
pub fn key_order(a: &[u8], b: &[u8]) -> Ordering
    ensures { result ≡ pointer_order (pointer_of (decode a.now)) (pointer_of (decode b.now)) }
{
    let k = alike_keys(a, b);
    let x = peek(a, k);
    let y = peek(b, k);
    if tells(x, y) {
        return order_at(rank(x), rank(y));
    }
    parts_order(a, b, k)
}

// The same part by part, of what is left of the keys at a place.
fn parts_order(a: &[u8], b: &[u8], from: usize) -> Ordering
    ensures { result ≡ pointer_order (pointer_from a.now from) (pointer_from b.now from) }
{
    let mut x = cursor_at(from);
    let mut y = cursor_at(from);
    loop {
        let order = part_order(left(a, x), left::<Part>(b, y));
        if order.is_ne() {
            return order;
        }
        match (next_part(a, x), next_part(b, y)) {
            (None, None) => return Ordering::Equal,
            (None, Some(_)) => return Ordering::Less,
            (Some(_), None) => return Ordering::Greater,
            (Some(x2), Some(y2)) => {
                x = x2;
                y = y2;
            }
        }
    }
}

// What follows the part that begins at a place of a key. As written it is found at once, and decoded from a backslash on.
pub fn after_part(key: &[u8], at: usize) -> Option<usize>
    ensures goes_at { GoesAt key.now (pointer_of (rest key.now (cursor at 0 0))) result }
    ensures is { CrossesTo key.now at result }
{
    let to = written_end(key, at, SLASH);
    match peek(key, to) {
        SLASH => Some(to + 1),
        OVER => None,
        _ => Some(next_part(key, cursor_at(to))?.at),
    }
}
