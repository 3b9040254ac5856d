// The words of a state: where in the grammar it stands, what of a character is open, and the answer once there is one.
ghost use Rattle.std.specs.Prelude.{◌≡◌, ◌+◌, ◌≤◌};
ghost use Rattle.wire.specs.Held.{inner_at, four_code, tails_code, inner_code, inner_from, inner_bits, inner_high, placed};

use wire::{Held, Inner};

// The spots, by their numbers (crate wire, specs/Held.antt): between tokens; then those inside literals, numbers, strings that are values, and names.
pub(crate) const VALUE: u32 = 0;

pub(crate) const FIRST: u32 = 1;

pub(crate) const NAME: u32 = 2;

pub(crate) const COLON: u32 = 3;

pub(crate) const AFTER: u32 = 4;

pub(crate) const LITERALS: u32 = 5;

pub(crate) const NUMBERS: u32 = 14;

pub(crate) const TEXTS: u32 = 22;

pub(crate) const KEYS: u32 = 38;

// From here on there is an answer: acceptance, or 100 and the refusal's number.
pub(crate) const OVER: u32 = 54;

pub(crate) const ACCEPTED: u32 = 100;

pub(crate) const TOO_LONG: u32 = 101;

pub(crate) const GRAMMAR: u32 = 102;

pub(crate) const CHARACTER: u32 = 103;

pub(crate) const DEEP: u32 = 105;

pub(crate) const MANY: u32 = 106;

// A state at a spot, with the words of its character. What a spot doesn't have may stand there from before: it is cleared once a call.
pub(crate) fn open(h: Held, spot: u32, from: u32, bits: u32, high: u32) -> Held
    ensures { result ≡ placed h.place h.values h.depth h.opened spot from bits high }
{
    Held {
        spot,
        from,
        bits,
        high,
        ..h
    }
}

// The same state at another spot, which has no character open.
pub(crate) fn moved(h: Held, spot: u32) -> Held
    ensures { result ≡ placed h.place h.values h.depth h.opened spot h.from h.bits h.high }
{
    open(h, spot, h.from, h.bits, h.high)
}

// An answer, with its second number.
pub(crate) fn told(h: Held, code: u32, second: u32) -> Held
    ensures { result ≡ placed h.place h.values h.depth h.opened code second h.bits h.high }
{
    open(h, code, second, h.bits, h.high)
}

// The place inside a string, by its number and the words of its character.
pub(crate) fn inner_at(k: u32, from: u32, bits: u32, high: u32) -> Inner
    ensures { result ≡ inner_at k from bits high }
{
    match k {
        0 => Inner::Plain,
        1 => Inner::Escape(from),
        2 => Inner::Four(from, 3, bits),
        3 => Inner::Four(from, 2, bits),
        4 => Inner::Four(from, 1, bits),
        5 => Inner::Four(from, 0, bits),
        6 => Inner::Pair(from, high),
        7 => Inner::PairU(from, high),
        8 => Inner::Low1(from, high),
        9 => Inner::Low2(from, high),
        10 => Inner::Low3(from, high, bits),
        11 => Inner::Low4(from, high, bits),
        12 => Inner::Second3(from, bits),
        13 => Inner::Second4(from, bits),
        14 => Inner::Tails(from, 0, bits),
        _ => Inner::Tails(from, 1, bits),
    }
}

// The number of a place in a \u escape, by the digits that are left after the next.
fn four_code(left: u32) -> u32
    ensures value { result ≡ four_code left }
    ensures small { result ≤ 5 }
{
    match left {
        3 => 2,
        2 => 3,
        1 => 4,
        _ => 5,
    }
}

// The number of a place in a sequence, by the bytes that are left after the next.
fn tails_code(left: u32) -> u32
    ensures value { result ≡ tails_code left }
    ensures small { result ≤ 15 }
{
    match left {
        0 => 14,
        _ => 15,
    }
}

// The same state at a place inside a string, whose places are numbered from `first` on.
pub(crate) fn inside(h: Held, first: u32, s: Inner) -> Held
    requires { first ≤ 38 }
    ensures { result ≡ placed h.place h.values h.depth h.opened (first + inner_code s) (inner_from s) (inner_bits s) (inner_high s) }
{
    match s {
        Inner::Plain => open(h, first, 0, 0, 0),
        Inner::Escape(from) => open(h, first + 1, from, 0, 0),
        Inner::Four(from, left, bits) => open(h, first + four_code(left), from, bits, 0),
        Inner::Pair(from, high) => open(h, first + 6, from, 0, high),
        Inner::PairU(from, high) => open(h, first + 7, from, 0, high),
        Inner::Low1(from, high) => open(h, first + 8, from, 0, high),
        Inner::Low2(from, high) => open(h, first + 9, from, 0, high),
        Inner::Low3(from, high, bits) => open(h, first + 10, from, bits, high),
        Inner::Low4(from, high, bits) => open(h, first + 11, from, bits, high),
        Inner::Second3(from, bits) => open(h, first + 12, from, bits, 0),
        Inner::Second4(from, bits) => open(h, first + 13, from, bits, 0),
        Inner::Tails(from, left, bits) => open(h, first + tails_code(left), from, bits, 0),
    }
}
