// A value begins, brackets open and close, commas: a byte between tokens that is no white space.
ghost use Rattle.std.specs.Prelude.{◌≡◌, cond, eqb, ℕ, ◌+◌, ◌-◌, ◌/◌, ◌%◌, ◌<◌};
ghost use Rattle.text.specs.Limits.{base};
ghost use Rattle.wire.specs.Machine as machine;
ghost use Rattle.wire.specs.Held.{bracket_of, opened_of, spot_at, state_at, placed};
ghost use Rattle.pieces.specs.Turns.{act_at, act_of};

use crate::spots::{
    ACCEPTED, AFTER, COLON, DEEP, FIRST, GRAMMAR, KEYS, LITERALS, MANY, NAME, NUMBERS, TEXTS,
    VALUE, moved, told,
};
use json_reader::limits::{DEPTH, VALUES};
use wire::Held;

// A value that holds no others begins: 6 if it is one too many.
fn begun(at: u32, h: Held, spot: u32) -> Held
    requires { spot < 54 }
    ensures { state_at (at + 1) result ≡ machine.counted base at h.values (machine.going (at + 1) (h.values + 1) (opened_of h.depth h.opened) (spot_at spot h.from h.bits h.high)) }
{
    if VALUES as u32 <= h.values {
        return told(h, MANY, at);
    }
    Held {
        values: h.values + 1,
        spot,
        ..h
    }
}

// A bracket opens: 5 is asked before 6. The bit that would be pushed out means nothing: fewer brackets are open.
fn opens(at: u32, h: Held, bit: u64) -> Held
    requires { bit < 2 }
    ensures { state_at (at + 1) result ≡ machine.opens base (bracket_of bit) at h.values (opened_of h.depth h.opened) }
{
    if DEPTH as u32 <= h.depth {
        return told(h, DEEP, at);
    }
    if VALUES as u32 <= h.values {
        return told(h, MANY, at);
    }
    Held {
        values: h.values + 1,
        depth: h.depth + 1,
        opened: h.opened % 0x8000000000000000 * 2 + bit,
        spot: FIRST,
        ..h
    }
}

// A literal or a number begins, but for a zero and a minus.
fn scalar_begins(at: u32, h: Held, b: u16) -> Held
    requires quote { b ≡ 34 → ⊥ }
    requires brace { b ≡ 123 → ⊥ }
    requires bracket { b ≡ 91 → ⊥ }
    requires minus { b ≡ 45 → ⊥ }
    requires nought { b ≡ 48 → ⊥ }
    ensures { state_at (at + 1) result ≡ machine.begins base at h.values (opened_of h.depth h.opened) b }
{
    if b == b't' as u16 {
        return begun(at, h, LITERALS + 7);
    }
    if b == b'f' as u16 {
        return begun(at, h, LITERALS + 3);
    }
    if b == b'n' as u16 {
        return begun(at, h, LITERALS);
    }
    if b < b'0' as u16 {
        return told(h, GRAMMAR, at);
    }
    if b < b':' as u16 {
        return begun(at, h, NUMBERS + 2);
    }
    told(h, GRAMMAR, at)
}

// A value begins, by its first byte.
fn begins(at: u32, h: Held, b: u16) -> Held
    ensures { state_at (at + 1) result ≡ machine.begins base at h.values (opened_of h.depth h.opened) b }
{
    if b == b'"' as u16 {
        return begun(at, h, TEXTS);
    }
    if b == b'{' as u16 {
        return opens(at, h, 1);
    }
    if b == b'[' as u16 {
        return opens(at, h, 0);
    }
    if b == b'-' as u16 {
        return begun(at, h, NUMBERS);
    }
    if b == b'0' as u16 {
        return begun(at, h, NUMBERS + 1);
    }
    scalar_begins(at, h, b)
}

// A name begins.
fn quotes(at: u32, h: Held, b: u16) -> Held
    ensures { state_at (at + 1) result ≡ machine.quotes at h.values (opened_of h.depth h.opened) b }
{
    if b == b'"' as u16 {
        return moved(h, KEYS);
    }
    told(h, GRAMMAR, at)
}

// The colon behind a name.
fn colon(at: u32, h: Held, b: u16) -> Held
    ensures { state_at (at + 1) result ≡ act_at 3 at h.values (opened_of h.depth h.opened) b }
{
    if b == b':' as u16 {
        return moved(h, VALUE);
    }
    told(h, GRAMMAR, at)
}

// The innermost bracket closes.
fn shut(h: Held) -> Held
    requires { h.depth ≡ 0 → ⊥ }
    ensures { result ≡ placed h.place h.values (h.depth - 1) (h.opened / 2) 4 h.from h.bits h.high }
{
    Held {
        depth: h.depth - 1,
        opened: h.opened / 2,
        spot: AFTER,
        ..h
    }
}

// After the whole value, with nothing open: the text may end.
fn closes_text(at: u32, h: Held, b: u16) -> Held
    requires { h.depth ≡ 0 }
    ensures { state_at (at + 1) result ≡ machine.closes at h.values (opened_of h.depth h.opened) b }
{
    if b == 256 {
        return told(h, ACCEPTED, h.values);
    }
    told(h, GRAMMAR, at)
}

// After an element of an array.
fn closes_array(at: u32, h: Held, b: u16) -> Held
    requires fact { h.depth ≡ 0 → ⊥ }
    requires array { h.opened % 2 ≡ 0 }
    ensures { state_at (at + 1) result ≡ machine.closes at h.values (opened_of h.depth h.opened) b }
{
    if b == b',' as u16 {
        return moved(h, VALUE);
    }
    if b == b']' as u16 {
        return shut(h);
    }
    told(h, GRAMMAR, at)
}

// After a member of an object.
fn closes_object(at: u32, h: Held, b: u16) -> Held
    requires fact { h.depth ≡ 0 → ⊥ }
    requires object { h.opened % 2 ≡ 1 }
    ensures { state_at (at + 1) result ≡ machine.closes at h.values (opened_of h.depth h.opened) b }
{
    if b == b',' as u16 {
        return moved(h, NAME);
    }
    if b == b'}' as u16 {
        return shut(h);
    }
    told(h, GRAMMAR, at)
}

// After a value.
pub(crate) fn closes(at: u32, h: Held, b: u16) -> Held
    ensures { state_at (at + 1) result ≡ machine.closes at h.values (opened_of h.depth h.opened) b }
{
    if h.depth == 0 {
        return closes_text(at, h, b);
    }
    if h.opened % 2 == 0 {
        return closes_array(at, h, b);
    }
    closes_object(at, h, b)
}

// Right after a bracket: the closing byte is taken as one after a value, and else an item must come.
fn item(b: u16, close: u16, other: u32) -> u32
    ensures { result ≡ cond (eqb b close) 4 other }
{
    if b == close {
        return AFTER;
    }
    other
}

// What must come between tokens: as the spot says, and right after a bracket by the bracket and the byte.
fn wanted(h: Held, b: u16) -> u32
    requires { h.spot < 5 }
    ensures { (at : ℕ) → act_at result at h.values (opened_of h.depth h.opened) b ≡ act_of (spot_at h.spot 0 0 0) at h.values (opened_of h.depth h.opened) b }
{
    if h.spot != FIRST {
        return h.spot;
    }
    if h.depth == 0 {
        return GRAMMAR;
    }
    if h.opened % 2 == 0 {
        return item(b, b']' as u16, VALUE);
    }
    item(b, b'}' as u16, NAME)
}

// A byte between tokens that is no white space.
pub(crate) fn act(at: u32, h: Held, b: u16) -> Held
    requires { h.spot < 5 }
    ensures { state_at (at + 1) result ≡ act_of (spot_at h.spot 0 0 0) at h.values (opened_of h.depth h.opened) b }
{
    let want = wanted(h, b);
    if want == AFTER {
        return closes(at, h, b);
    }
    if want == VALUE {
        return begins(at, h, b);
    }
    if want == COLON {
        return colon(at, h, b);
    }
    if want == NAME {
        return quotes(at, h, b);
    }
    told(h, GRAMMAR, at)
}
