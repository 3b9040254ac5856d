// What a byte does inside a number: the number of the spot that it leads to; AFTER where the number has ended before it, GRAMMAR where it can't continue and
// the number can't end.
ghost use Rattle.std.specs.Prelude.{◌≡◌, cond};
ghost use Rattle.text.specs.Tokens.{is_digit};
ghost use Rattle.wire.specs.declared.Figure.TheVariants.{Minus, Exponent};
ghost use Rattle.wire.specs.Figures.{exp_turn, frac_turn, turn_of};
ghost use Rattle.wire.specs.Held.{figure_at};
ghost use Rattle.pieces.specs.Turns.{turn_at};

use crate::spots::{AFTER, GRAMMAR, NUMBERS};
use json_reader::bytes::{LARGE_E, MINUS, NINE, PLUS, POINT, SMALL_E, ZERO};

const NOUGHT: u32 = NUMBERS + 1;

pub(crate) const WHOLE: u32 = NUMBERS + 2;

const AFTER_POINT: u32 = NUMBERS + 3;

pub(crate) const FRACTION: u32 = NUMBERS + 4;

const EXPONENT: u32 = NUMBERS + 5;

const SIGN: u32 = NUMBERS + 6;

pub(crate) const DIGITS: u32 = NUMBERS + 7;

// A digit leads on, another byte does what `other` says.
fn digit_or(b: u16, next: u32, other: u32) -> u32
    ensures { result ≡ cond (is_digit b) next other }
{
    match b {
        ZERO..=NINE => next,
        _ => other,
    }
}

// Where an exponent may begin.
fn exp_turn(b: u16) -> u32
    ensures { turn_at result ≡ exp_turn b }
{
    if b == SMALL_E {
        return EXPONENT;
    }
    if b == LARGE_E {
        return EXPONENT;
    }
    AFTER
}

// Where a fraction or an exponent may begin.
fn frac_turn(b: u16) -> u32
    ensures { turn_at result ≡ frac_turn b }
{
    if b == POINT {
        return AFTER_POINT;
    }
    exp_turn(b)
}

// After a minus.
fn minus_turn(b: u16) -> u32
    ensures { turn_at result ≡ turn_of Minus b }
{
    if b == ZERO {
        return NOUGHT;
    }
    digit_or(b, WHOLE, GRAMMAR)
}

// After the letter of an exponent.
fn exponent_turn(b: u16) -> u32
    ensures { turn_at result ≡ turn_of Exponent b }
{
    if b == MINUS {
        return SIGN;
    }
    if b == PLUS {
        return SIGN;
    }
    digit_or(b, DIGITS, GRAMMAR)
}

// What a byte does, 256 at the end of the text.
pub(crate) fn turn(k: u32, b: u16) -> u32
    ensures { turn_at result ≡ turn_of (figure_at k) b }
{
    match k {
        0 => minus_turn(b),
        1 => frac_turn(b),
        2 => digit_or(b, WHOLE, frac_turn(b)),
        3 => digit_or(b, FRACTION, GRAMMAR),
        4 => digit_or(b, FRACTION, exp_turn(b)),
        5 => exponent_turn(b),
        6 => digit_or(b, DIGITS, GRAMMAR),
        _ => digit_or(b, DIGITS, AFTER),
    }
}
