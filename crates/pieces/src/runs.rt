// Bytes that leave a state where it is but for its place, or inside its number: white space between tokens, the bytes of a number, whole characters of a
// string.
ghost use Rattle.std.specs.Prelude.{◌≤◌, ◌<◌, length};
ghost use Rattle.pieces.specs.Passing.{Leads};

use crate::figures::{DIGITS, FRACTION, WHOLE, turn};
use crate::spots::{KEYS, LITERALS, NUMBERS, TEXTS};
use json_reader::bytes::peek;
use json_reader::strings::chars_end;
use json_reader::tokens::{digits_end, skip};

// Where a run ends: the spot and the place behind it.
#[derive(Clone, Copy)]
pub(crate) struct Stretch {
    pub(crate) spot: u32,
    pub(crate) to: usize,
}

// Digits of a whole part, of a fraction, of an exponent.
fn digits_from(spot: u32, text: &[u8], from: usize) -> usize
    requires from_in_bounds { from ≤ length text.now }
    requires number { 14 ≤ spot }
    requires going { spot < 22 }
    ensures { Leads spot text.now from spot result }
{
    match spot {
        WHOLE | FRACTION | DIGITS => digits_end(text, from),
        _ => from,
    }
}

// The bytes of a number: up to one that ends it, or that it can't have.
fn number_run(start: u32, text: &[u8], from: usize) -> Stretch
    requires from_in_bounds { from ≤ length text.now }
    requires number { 14 ≤ start }
    requires going { start < 22 }
    ensures { Leads start text.now from result.spot result.to }
{
    let mut spot = start;
    let mut at = from;
    loop {
        let to = digits_from(spot, text, at);
        let next = turn(spot - NUMBERS, peek(text, to));
        if next < NUMBERS {
            return Stretch { spot, to };
        }
        if TEXTS <= next {
            return Stretch { spot, to };
        }
        spot = next;
        at = to + 1;
    }
}

// The longest run from a place on.
pub(crate) fn run(spot: u32, text: &[u8], from: usize) -> Stretch
    requires from_in_bounds { from ≤ length text.now }
    requires going { spot < 54 }
    ensures { Leads spot text.now from result.spot result.to }
{
    if spot < LITERALS {
        return Stretch {
            spot,
            to: skip(text, from),
        };
    }
    if spot < NUMBERS {
        return Stretch { spot, to: from };
    }
    if spot < TEXTS {
        return number_run(spot, text, from);
    }
    if spot == TEXTS {
        return Stretch {
            spot,
            to: chars_end(text, from),
        };
    }
    if spot == KEYS {
        return Stretch {
            spot,
            to: chars_end(text, from),
        };
    }
    Stretch { spot, to: from }
}
