// Where a string ends, and where its whole characters do (docs/RULES.md, 3.4).
ghost use Rattle.std.specs.Prelude.{◌≡◌};
ghost use Rattle.text.specs.Strings.{string_end};
ghost use Rattle.json_reader.specs.Plain.{Stretched, CharsEnd, Stops};

use crate::chars::step_at;
use crate::plain::plain_end;
use text::Fault;

// How far the whole characters of a string stand, and how it ends.
#[derive(Clone, Copy)]
pub struct Stop {
    at: usize,
    token: Result<usize, Fault<usize>>,
}

// What a stretch of a string comes to: the place after a plain byte, where plain ones may follow; or the end of its characters.
#[derive(Clone, Copy)]
pub enum Stepped {
    On(usize),
    Done(Stop),
}

// By single steps up to a plain byte, or to the end of the characters.
fn steps_end(text: &[u8], from: usize) -> Stepped
    ensures { Stretched text.now from result }
{
    let mut at = from;
    loop {
        match step_at(text, at) {
            Ok(None) => {
                return Stepped::Done(Stop {
                    at,
                    token: Ok(at + 1),
                });
            }
            Ok(Some((_, len))) => {
                at = at + len;
                if len == 1 {
                    return Stepped::On(at);
                }
            }
            Err(Fault::Malformed(p)) => {
                return Stepped::Done(Stop {
                    at,
                    token: Err(Fault::Malformed(p)),
                });
            }
            Err(Fault::Forbidden(p)) => {
                return Stepped::Done(Stop {
                    at,
                    token: Err(Fault::Forbidden(p)),
                });
            }
        }
    }
}

// From a place inside a string to its end: plain bytes by eights, what is not plain by single steps, in turn. One function for both that ask, so that a step's
// code stands in its loop and isn't called.
fn last_stop(text: &[u8], from: usize) -> Stop
    ensures { Stops text.now from result }
{
    let mut at = from;
    loop {
        let next = plain_end(text, at);
        match steps_end(text, next) {
            Stepped::On(to) => {
                at = to;
            }
            Stepped::Done(last) => {
                return last;
            }
        }
    }
}

// Where a string ends, from a place inside it.
pub(crate) fn string_end(text: &[u8], from: usize) -> Result<usize, Fault<usize>>
    ensures { result ≡ string_end text.now from }
{
    last_stop(text, from).token
}

// The place behind the whole characters that stand from a place inside a string on.
pub fn chars_end(text: &[u8], from: usize) -> usize
    ensures { CharsEnd text.now from result }
{
    last_stop(text, from).at
}
