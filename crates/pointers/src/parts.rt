// One part of a pointer, read off a key while the key is decoded: nothing is copied. In a part `~1` is `/` and `~0` is `~` (docs/RULES.md,
// 6.2). Up to a backslash keys are compared, and passed, as they are written; an escape that spells one byte is compared as that byte.
ghost use Rattle.std.specs.Prelude.{◌≡◌, Bool, true, false, ◌+◌, ◌<◌, ltb, length};
ghost use Rattle.std.specs.Iterator.{YieldsFirst, item_count};
ghost use Rattle.laws.specs.Order.{order_of, same};
ghost use Rattle.text.specs.Text.{byte_at};
ghost use Rattle.text.specs.Strings.{decode};
ghost use Rattle.json_reader.specs.Cursors.{rest, cursor, next_of};
ghost use Rattle.contact.specs.Pointer.{pointer_of};
ghost use Rattle.pointers.specs.Parts.{part_left, part_unread, part_next, name_left, name_unread, tilde_left, tilde_next, left_at};
ghost use Rattle.pointers.specs.Parts.{Goes, ShownAt, Spelled, Crosses, RunTo, Passes, OwnTo};

use json_reader::bytes::{BACKSLASH, OVER, SLASH, TILDE, ZERO, peek};
use json_reader::decode::{Cursor, cursor_at, next_byte};
use json_reader::names::order_at;
use json_reader::plain::{Class, alike_from, alike_own_from, is_own_byte};
use std::cmp::Ordering;
use std::marker::PhantomData;

// A byte that is told apart as written, as wide as what `peek` gives.
const ONE: u16 = b'1' as u16;

// What a `~` stands for, the cursor being behind it: `~1` is `/`, `~0` is `~`, and both bytes are passed; before any other byte it is `~`
// itself.
#[inline(always)]
fn tilde_byte(key: &[u8], on: Cursor) -> Option<(u8, Cursor)>
    ensures result_value { part_unread key.now result ≡ tilde_left (rest key.now on) }
    ensures is { result ≡ tilde_next on (next_of key.now on) }
{
    let Some((b, after)) = next_byte(key, on) else {
        return Some((b'~', on));
    };
    if b == b'1' {
        return Some((b'/', after));
    }
    if b == b'0' {
        return Some((b'~', after));
    }
    Some((b'~', on))
}

// The next byte of the part at the cursor; over at its end. It becomes part of the loops that ask for it, as `next_byte` does.
#[inline(always)]
pub fn part_byte(key: &[u8], c: Cursor) -> Option<(u8, Cursor)>
    ensures result_value { part_unread key.now result ≡ part_left (rest key.now c) }
    ensures is { result ≡ part_next key.now c }
{
    let (b, on) = next_byte(key, c)?;
    if b == b'/' {
        return None;
    }
    if b == b'~' {
        return tilde_byte(key, on);
    }
    Some((b, on))
}

// What is written at a place of a part, or of a name: a byte and how many written bytes spell it. At the end the value is OVER.
#[derive(Clone, Copy)]
pub(crate) struct Glyph {
    pub value: u16,
    pub len: usize,
}

// The end of a part.
const END: Glyph = Glyph {
    value: OVER,
    len: 1,
};

// What is compared: a part of a pointer, or a name, which is no pointer.
pub(crate) trait Kind {
    ghost part: { Bool };

    // The next byte at a cursor; over at the end.
    fn byte(key: &[u8], c: Cursor) -> Option<(u8, Cursor)>
        ensures { name_unread part key.now result ≡ name_left part key.now c };

    // The glyph at a place, unless what stands there has to be decoded.
    fn glyph_at(key: &[u8], at: usize) -> Option<Glyph>
        ensures { ShownAt part key.now at result };
}

// A part of a pointer, which ends at a slash.
pub(crate) struct Part;

// A name, all of whose bytes count.
pub(crate) struct Name;

// What a `~` of a part and the byte after it spell.
fn tilde_at(key: &[u8], at: usize) -> Option<Glyph>
    requires { byte_at key.now at ≡ 126 }
    ensures { ShownAt true key.now at result }
{
    let b = peek(key, at + 1);
    if b == ONE {
        return Some(Glyph {
            value: SLASH,
            len: 2,
        });
    }
    if b == ZERO {
        return Some(Glyph {
            value: TILDE,
            len: 2,
        });
    }
    if b == BACKSLASH {
        return None;
    }
    Some(Glyph {
        value: TILDE,
        len: 1,
    })
}

// What is spelled by a backslash and what follows it, where that is one byte of ASCII.
fn coded_at(name: &[u8], at: usize) -> Option<Glyph>
    ensures { ShownAt false name.now at result }
{
    let (b, on) = next_byte(name, cursor_at(at))?;
    if on.left != 0 || on.at < at || name.len() < on.at {
        return None;
    }
    Some(Glyph {
        value: b as u16,
        len: on.at - at,
    })
}

impl Kind for Name {
    ghost part = { false };

    #[inline(always)]
    fn byte(key: &[u8], c: Cursor) -> Option<(u8, Cursor)> {
        next_byte(key, c)
    }

    fn glyph_at(key: &[u8], at: usize) -> Option<Glyph> {
        let b = peek(key, at);
        if b == BACKSLASH {
            return coded_at(key, at);
        }
        Some(Glyph { value: b, len: 1 })
    }
}

// A part ends at a slash, and of a `~` that is spelled by an escape nothing is said, since it means something together with what follows.
impl Kind for Part {
    ghost part = { true };

    #[inline(always)]
    fn byte(key: &[u8], c: Cursor) -> Option<(u8, Cursor)> {
        part_byte(key, c)
    }

    fn glyph_at(key: &[u8], at: usize) -> Option<Glyph> {
        let b = peek(key, at);
        if b == BACKSLASH {
            let g = coded_at(key, at)?;
            if g.value == SLASH {
                return Some(END);
            }
            if g.value == TILDE {
                return None;
            }
            return Some(g);
        }
        if b == SLASH {
            return Some(END);
        }
        if b == TILDE {
            return tilde_at(key, at);
        }
        Some(Glyph { value: b, len: 1 })
    }
}

// What is left at a cursor of a part of a key, or of a name.
#[derive(Clone, Copy, Drop)]
pub(crate) struct Side<'a, K> {
    key: &'a [u8],
    at: Cursor,
    kind: PhantomData<K>,
}

// What is left of one at a cursor.
pub(crate) fn left<K: Kind>(key: &[u8], at: Cursor) -> Side<K>
    ensures { (result.key.now ≡ key.now) × (result.at ≡ at) }
{
    Side {
        key,
        at,
        kind: PhantomData,
    }
}

impl<'a, K: Kind> Iterator for Side<'a, K> {
    type Item = u8;

    ghost next_gives = { YieldsFirst (λ s. name_left K.part s.key.now s.at) };

    ghost remaining = { item_count (λ s. name_left K.part s.key.now s.at) };

    #[inline(always)]
    fn next(&mut self) -> Option<u8> {
        let (b, on) = K::byte(self.key, self.at)?;
        self.at = on;
        Some(b)
    }
}

// The order of what is left of two, decoded. It becomes part of no other function: so what it keeps is in no frame of the walk over a card,
// which is open once a container.
#[inline(never)]
fn decoded_order<A: Kind, B: Kind>(x: Side<A>, y: Side<B>) -> Ordering
    ensures { result ≡ order_of (name_left A.part x.entry.key.now x.entry.at) (name_left B.part y.entry.key.now y.entry.at) }
{
    x.cmp(y)
}

// Are fewer than eight bytes left from a place on? Then bytes are compared one by one: to ask for eight would take longer.
pub(crate) fn is_short(key: &[u8], at: usize) -> bool
    ensures { result ≡ ltb (length key.now) (at + 8) }
{
    key.len().saturating_sub(at) < 8
}

// Bytes that spell themselves, in a part as in a name: all but a slash, a tilde and a backslash.
struct SpelledByte;

impl Class for SpelledByte {
    ghost holds = { Spelled };

    ghost within = { λ b s. s.byte };

    // Most bytes take few tests.
    fn has(b: u16) -> bool {
        b != SLASH && (b < BACKSLASH || (b != BACKSLASH && b != TILDE && b < OVER))
    }

    // Those of ASCII are told at once, where eight are left of both. Not asked at a tilde or a slash: they often stand in a row, and each
    // would be looked at with all that follow.
    fn alike_start(text: &[u8], a: usize, other: &[u8], b: usize) -> usize {
        if is_short(text, a) || is_short(other, b) || matches!(peek(text, a), TILDE | SLASH) {
            return 0;
        }
        alike_own_from(text, a, other, b)
    }
}

// The order of a part, or a name, and another, from places where a character begins: they are compared as written, up to what no glyph
// tells. Glyphs are read only where no plain bytes are alike.
fn written_order<A: Kind, B: Kind>(
    key: &[u8],
    from: usize,
    name: &[u8],
    name_from: usize,
) -> Ordering
    ensures { result ≡ order_of (left_at A.part key.now from) (left_at B.part name.now name_from) }
{
    let mut i = from;
    let mut j = name_from;
    loop {
        let run = alike_from::<SpelledByte>(key, i, name, j);
        i = i + run;
        j = j + run;
        let (Some(p), Some(q)) = (A::glyph_at(key, i), B::glyph_at(name, j)) else {
            return decoded_order(left::<A>(key, cursor_at(i)), left::<B>(name, cursor_at(j)));
        };
        let x = p.value;
        let y = q.value;
        if x != y {
            return order_at(x, y);
        }
        if x == OVER {
            return Ordering::Equal;
        }
        i = i + p.len;
        j = j + q.len;
    }
}

// The order of what is left of a part and what is left of another, or of a name.
pub(crate) fn part_order<K: Kind>(part: Side<Part>, other: Side<K>) -> Ordering
    ensures { result ≡ order_of (part_left (rest part.entry.key.now part.entry.at))
        (name_left K.part other.entry.key.now other.entry.at) }
{
    if part.at.left != 0 || other.at.left != 0 {
        return decoded_order(part, other);
    }
    written_order::<Part, K>(part.key, part.at.at, other.key, other.at.at)
}

// The order of the part that begins at a place of a key and a name.
pub fn part_order_at(key: &[u8], at: usize, name: &[u8]) -> Ordering
    ensures { result ≡ order_of (part_left (rest key.now (cursor at 0 0))) (decode name.now) }
{
    written_order::<Part, Name>(key, at, name, 0)
}

// The order of two names, decoded.
pub fn name_order(name: &[u8], other: &[u8]) -> Ordering
    ensures { result ≡ order_of (decode name.now) (decode other.now) }
{
    written_order::<Name, Name>(name, 0, other, 0)
}

// Are they the same?
pub(crate) fn part_same<K: Kind>(part: Side<Part>, other: Side<K>) -> bool
    ensures { result ≡ same (part_left (rest part.entry.key.now part.entry.at)) (name_left K.part other.entry.key.now other.entry.at) }
{
    part_order(part, other).is_eq()
}

// Past the bytes from a place on that are neither `stop` nor a backslash.
pub(crate) fn written_end(key: &[u8], from: usize, stop: u16) -> usize
    ensures { RunTo key.now stop from result }
{
    let mut at = from;
    loop {
        let b = peek(key, at);
        if b == stop || b == BACKSLASH || b == OVER {
            return at;
        }
        at += 1;
    }
}

// Past such bytes, if a character begins at the cursor.
pub(crate) fn past_written(key: &[u8], c: Cursor, stop: u16) -> Cursor
    ensures { Passes key.now stop c result }
{
    if c.left != 0 {
        return c;
    }
    cursor_at(written_end(key, c.at, stop))
}

// What follows the part at the cursor.
pub(crate) fn next_part(key: &[u8], from: Cursor) -> Option<Cursor>
    ensures goes { Goes key.now (pointer_of (rest key.now from)) result }
    ensures is { Crosses key.now from result }
{
    let mut c = from;
    loop {
        let (b, on) = next_byte(key, past_written(key, c, SLASH))?;
        if b == b'/' {
            return Some(on);
        }
        c = on;
    }
}

// Past the bytes from a place on that are the same in a part and in a name that is written anew.
pub fn own_end(key: &[u8], from: usize) -> usize
    ensures { OwnTo key.now from result }
{
    let mut at = from;
    while is_own_byte(peek(key, at)) {
        at += 1;
    }
    at
}
