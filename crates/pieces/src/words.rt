// The words of a state as they are left to the caller: what a state doesn't have is 0, so that they hang on the state alone.
ghost use Rattle.std.specs.Prelude.{◌≡◌, ◌≤◌};
ghost use Rattle.wire.specs.Held.{opened_of, bits_of, state_of, held_of, placed};

use crate::spots::{
    ACCEPTED, CHARACTER, DEEP, GRAMMAR, KEYS, MANY, OVER, TEXTS, TOO_LONG, inner_at, inside, open,
};
use wire::Held;

// The bits of so many open brackets, and no others.
fn low_bits(opened: u64, depth: u32) -> u64
    ensures { result ≡ bits_of (opened_of depth opened) }
{
    if 64 <= depth {
        return opened;
    }
    opened % (1u64 << depth)
}

// A state that has no other words.
pub(crate) fn alone(spot: u32, from: u32) -> Held
    ensures { result ≡ placed 0 0 0 0 spot from 0 0 }
{
    Held {
        place: 0,
        values: 0,
        depth: 0,
        opened: 0,
        spot,
        from,
        bits: 0,
        high: 0,
    }
}

// The words of an answer: a number that is none means 2.
pub(crate) fn tidy_answer(h: Held) -> Held
    requires { 54 ≤ h.spot }
    ensures { result ≡ held_of (state_of h) }
{
    match h.spot {
        TOO_LONG => alone(TOO_LONG, 0),
        ACCEPTED => alone(ACCEPTED, h.from),
        CHARACTER => alone(CHARACTER, h.from),
        DEEP => alone(DEEP, h.from),
        MANY => alone(MANY, h.from),
        _ => alone(GRAMMAR, h.from),
    }
}

// The words of any state.
pub(crate) fn tidy(h: Held) -> Held
    ensures { result ≡ held_of (state_of h) }
{
    if OVER <= h.spot {
        return tidy_answer(h);
    }
    let kept = Held {
        opened: low_bits(h.opened, h.depth),
        ..h
    };
    if h.spot < TEXTS {
        return open(kept, h.spot, 0, 0, 0);
    }
    if h.spot < KEYS {
        return inside(
            kept,
            TEXTS,
            inner_at(h.spot - TEXTS, h.from, h.bits, h.high),
        );
    }
    inside(kept, KEYS, inner_at(h.spot - KEYS, h.from, h.bits, h.high))
}
