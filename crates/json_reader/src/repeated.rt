// The earliest repeated name of an object (docs/RULES.md, 3.5), looked for among the places of its names' opening quotes in the order of the text.
ghost use Rattle.std.specs.Prelude.{◌≡◌, ◌≤◌, ◌<◌, length};
ghost use Rattle.laws.specs.Earliest.{place_of, first_repeat};
ghost use Rattle.repeats.specs.Quoted.{tail_at};
ghost use Rattle.repeats.specs.Beginning.{PlainRun, AgreeRun, Begin};
ghost use Rattle.text.specs.Limits.{base};
ghost use Rattle.json_reader.specs.Repeats.{AgreeAsks, RepeatAsks, SomeAsks};

use crate::bytes::{BACKSLASH, OVER, QUOTE, peek};
use crate::quoted::Names;
use crate::sort::sort_names;
use laws::labels::{ascend, first_direct, least_beside};

// So few names are compared as they are, and so many behind what they begin with: to sort them would take longer.
const FEW: usize = 8;

const SOME: usize = 16;

// How many bytes from a place inside a name on stand for themselves.
fn plain_run(text: &[u8], a: usize) -> usize
    requires { a ≤ 4294967296 }
    ensures { PlainRun text.now a result }
{
    let mut k = 0;
    loop {
        let b = peek(text, a + k);
        if b == QUOTE || b == BACKSLASH || b == OVER {
            return k;
        }
        k += 1;
    }
}

// How many of `most` bytes are the same from two places on.
fn agree(text: &[u8], a: usize, b: usize, most: usize) -> usize
    requires { AgreeAsks a b most }
    ensures { AgreeRun text.now a b most result }
{
    for k in 0..most {
        if peek(text, a + k) != peek(text, b + k) {
            return k;
        }
    }
    most
}

// How many bytes, as written, the names all begin with.
fn common(text: &[u8], places: &[u32]) -> usize
    requires { (length text.now < 4294967295) × (0 < length places.now) }
    ensures { Begin text.now places.now 0 (length places.now) result }
{
    let a = places[0] as usize + 1;
    let mut k = plain_run(text, a);
    for place in places {
        k = agree(text, a, *place as usize + 1, k);
    }
    k
}

// The first place whose name one before it has, by a comparison of each with each behind what they all begin with.
fn first_behind(text: &[u8], places: &[u32]) -> Option<u32>
    requires { SomeAsks text.now places.now }
    ensures { result ≡ place_of (first_repeat (tail_at text.now 1) places.now) }
{
    let behind = (common(text, places) + 1) as u32;
    first_direct(&Names { text, behind }, places)
}

// The same by sorting: the time grows as n log n. The places are left sorted.
fn first_sorted(text: &[u8], places: &mut [u32]) -> Option<u32>
    requires { SomeAsks text.now places.old × (length places.old ≤ base.values) }
    ensures { result ≡ place_of (first_repeat (tail_at text.now 1) places.old) }
{
    let behind = (common(text, places) + 1) as u32;
    let names = Names { text, behind };
    if ascend(&names, places) {
        return None;
    }
    sort_names(&names, places);
    least_beside(&names, places)
}

// The place of the first name that one before it is equal to, if there is one. The places are given in the order of the text, and may be left in another.
pub(crate) fn first_repeat(text: &[u8], places: &mut [u32]) -> Option<u32>
    requires { RepeatAsks text.now places.old }
    ensures { result ≡ place_of (first_repeat (tail_at text.now 1) places.old) }
{
    match places.len() {
        0..=FEW => first_direct(&Names { text, behind: 1 }, places),
        0..=SOME => first_behind(text, places),
        _ => first_sorted(text, places),
    }
}
