// The reader in pieces: it begins, takes pieces one after another, and is told the end. What a caller keeps between two calls is a struct of a few words;
// once there is an answer it has that.
ghost use Rattle.std.specs.Prelude.{◌≡◌, ◌-◌, ◌≤◌, ◌<◌, cond, ltb, length};
ghost use Rattle.text.specs.Limits.{base};
ghost use Rattle.wire.specs.Machine as machine;
ghost use Rattle.wire.specs.Held.{state_of, held_of, placed};
ghost use Rattle.wire.specs.Service.{answer_of};
ghost use Rattle.pieces.specs.Turns.{ended};

use crate::feed::feed;
use crate::runs::run;
use crate::spots::{ACCEPTED, OVER, TOO_LONG, VALUE, moved};
use crate::words::{alone, tidy, tidy_answer};
use json_reader::bytes::peek;
use json_reader::limits::BYTES;
use text::Paper;
use wire::Held;

// The same state after so many bytes.
fn at_place(h: Held, place: u32) -> Held
    ensures { result ≡ placed place h.values h.depth h.opened h.spot h.from h.bits h.high }
{
    Held { place, ..h }
}

// Some bytes, for which the limit leaves room, and then the end if it has come (`last`): by runs, and single bytes between them. One loop for both, so
// that the code of a byte stands in it and isn't called.
fn feed_all(start: Held, text: &[u8], last: bool) -> Held
    requires text_len_bound { length text.now ≤ 1048576 - start.place }
    requires going { start.spot < 54 }
    ensures { state_of result ≡ ended last (machine.feeds base (state_of start) text.now) }
{
    let stop = text.len() + last as usize;
    let mut h = start;
    let mut i: usize = 0;
    loop {
        let run = run(h.spot, text, i);
        let to = run.to;
        h = moved(h, run.spot);
        let place = start.place + to as u32;
        if to == stop {
            return at_place(h, place);
        }
        h = feed(place, h, peek(text, to));
        if OVER <= h.spot {
            return h;
        }
        i = to + 1;
    }
}

// So many bytes of a piece are within the limit.
fn within(place: u32, size: usize) -> usize
    ensures { result ≡ cond (ltb size (1048576 - place)) size (1048576 - place) }
{
    let done = place as usize;
    if BYTES <= done {
        return 0;
    }
    let room = BYTES - done;
    if size < room {
        return size;
    }
    room
}

// A reader to begin with.
pub fn start() -> Held
    ensures { result ≡ held_of machine.start }
{
    alone(VALUE, 0)
}

// A byte beyond the limit: 1, unless there was an answer before it.
fn beyond(h: Held) -> Held
    ensures { result ≡ held_of (machine.cut_off (state_of h)) }
{
    if OVER <= h.spot {
        return tidy(h);
    }
    alone(TOO_LONG, 0)
}

// Takes a piece.
pub fn take(held: Held, piece: &[u8]) -> Held
    ensures { result ≡ held_of (machine.piece base (state_of held) piece.now) }
{
    if OVER <= held.spot {
        return tidy(held);
    }
    let size = within(held.place, piece.len());
    let got = feed_all(held, &piece[..size], false);
    if size < piece.len() {
        return beyond(got);
    }
    tidy(got)
}

// Is told the end.
pub fn end(held: Held) -> Held
    ensures { result ≡ held_of (machine.finish base (state_of held)) }
{
    if OVER <= held.spot {
        return tidy(held);
    }
    let nothing: [u8; 0] = [];
    tidy(feed_all(held, &nothing, true))
}

// What it answers: "go on", or the answer once there is one.
pub fn said(held: Held) -> Paper
    ensures { result ≡ answer_of (state_of held) }
{
    if held.spot < OVER {
        return Paper {
            number: 0,
            second: 0,
            written: 0,
        };
    }
    let told = tidy_answer(held);
    Paper {
        number: (told.spot - ACCEPTED) as u64,
        second: told.from as u64,
        written: 0,
    }
}
