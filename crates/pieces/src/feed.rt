// One byte, wherever it comes: 256 at the end of the text.
ghost use Rattle.std.specs.Prelude.{◌≡◌, ◌+◌, ◌-◌, ◌≤◌, ◌<◌};
ghost use Rattle.text.specs.Limits.{base};
ghost use Rattle.wire.specs.Machine as machine;
ghost use Rattle.wire.specs.Held.{opened_of, figure_at, literal_at, state_at};
ghost use Rattle.pieces.specs.Turns.{first_of, behind_of};

use crate::figures::turn;
use crate::inners::step;
use crate::literals::spelled;
use crate::spots::{
    AFTER, CHARACTER, COLON, GRAMMAR, KEYS, LITERALS, NUMBERS, TEXTS, inner_at, inside, moved, told,
};
use crate::values::{act, closes};
use json_reader::bytes::QUOTE;
use json_reader::tokens::is_space;
use text::Fault;
use wire::Held;

// Between tokens.
fn between(at: u32, h: Held, b: u16) -> Held
    requires { h.spot < 5 }
    ensures { state_at (at + 1) result ≡ machine.feed base (state_at at h) b }
{
    if is_space(b) {
        return h;
    }
    act(at, h, b)
}

// In a literal.
fn in_literal(at: u32, h: Held, k: u32, b: u16) -> Held
    ensures { state_at (at + 1) result ≡ machine.feed base (machine.going at h.values (opened_of h.depth h.opened) (literal_at k)) b }
{
    let next = spelled(k, b);
    if next == GRAMMAR {
        return told(h, GRAMMAR, at);
    }
    moved(h, next)
}

// After a value.
fn after(at: u32, h: Held, b: u16) -> Held
    ensures { state_at (at + 1) result ≡ machine.after_of at h.values (opened_of h.depth h.opened) b }
{
    if is_space(b) {
        return moved(h, AFTER);
    }
    closes(at, h, b)
}

// In a number: a byte that can't continue it is taken as the one after a value.
fn in_number(at: u32, h: Held, k: u32, b: u16) -> Held
    ensures { state_at (at + 1) result ≡ machine.feed base (machine.going at h.values (opened_of h.depth h.opened) (machine.number (figure_at k))) b }
{
    let next = turn(k, b);
    if next == AFTER {
        return after(at, h, b);
    }
    if next < NUMBERS {
        return told(h, GRAMMAR, at);
    }
    if next < TEXTS {
        return moved(h, next);
    }
    told(h, GRAMMAR, at)
}

// Where the numbers of a string's places begin.
fn first_of(code: u32) -> u32
    ensures { result ≡ first_of code }
{
    if code < KEYS {
        return TEXTS;
    }
    KEYS
}

// The spot behind its closing quote.
fn behind(first: u32) -> u32
    ensures { result ≡ behind_of first }
{
    if first < KEYS {
        return AFTER;
    }
    COLON
}

// In a string: the quote that closes it comes most often.
fn in_string(at: u32, h: Held, b: u16) -> Held
    requires le_spot { 22 ≤ h.spot }
    requires going { h.spot < 54 }
    ensures { state_at (at + 1) result ≡ machine.feed base (state_at at h) b }
{
    let first = first_of(h.spot);
    if b == QUOTE {
        if h.spot == first {
            return moved(h, behind(first));
        }
    }
    match step(at, inner_at(h.spot - first, h.from, h.bits, h.high), b) {
        Ok(Some(s)) => inside(h, first, s),
        Ok(None) => moved(h, behind(first)),
        Err(Fault::Malformed(p)) => told(h, GRAMMAR, p),
        Err(Fault::Forbidden(p)) => told(h, CHARACTER, p),
    }
}

// What the byte at a place does to a state without an answer.
pub(crate) fn feed(at: u32, h: Held, b: u16) -> Held
    requires { h.spot < 54 }
    ensures { state_at (at + 1) result ≡ machine.feed base (state_at at h) b }
{
    if h.spot < LITERALS {
        return between(at, h, b);
    }
    if h.spot < NUMBERS {
        return in_literal(at, h, h.spot - LITERALS, b);
    }
    if h.spot < TEXTS {
        return in_number(at, h, h.spot - NUMBERS, b);
    }
    in_string(at, h, b)
}
