// Where a name parts a run of sorted entries (docs/RULES.md, 6.5), found by halving.
ghost use Rattle.std.specs.Prelude.{◌≡◌, cond, ◌≤◌, ◌<◌, leb};
ghost use Rattle.laws.specs.Order.{order_of};
ghost use Rattle.text.specs.Strings.{decode};
ghost use Rattle.patch.specs.Children.{key_at};
ghost use Rattle.patch.specs.Marks.{MarkIn, RunCued, part_at};
ghost use Rattle.patch.specs.Runs.{next_step, next_hint, stands_before, Bound, RunOf};

use crate::children::key_at;
use crate::marks::MET;
use pointers::parts::{name_order, part_order_at};
use std::cmp::Ordering;

// A run of the listed entries: those from lo up to hi.
#[derive(Clone, Copy)]
pub(crate) struct Run {
    pub lo: usize,
    pub hi: usize,
}

// The order of the part at hand of the entry listed at i and a name. An entry that has met a member goes by the name of that one, which is
// its part.
fn part_order_of(
    text: &[u8],
    table: &[u32],
    ptext: &[u8],
    ptable: &[u32],
    rows: &[u32],
    cues: &[u32],
    i: usize,
    name: &[u8],
) -> Ordering
    requires { MarkIn rows.now cues.now i }
    ensures { result ≡ order_of (part_at text.now table.now ptext.now ptable.now rows.now cues.now i) (decode name.now) }
{
    let cue = cues[i] as usize;
    if MET <= cue {
        return name_order(key_at(text, table, cue - MET), name);
    }
    let key = key_at(ptext, ptable, rows[i] as usize);
    part_order_at(key, cue, name)
}

// Does the entry listed at i stand before the place, by its part at hand?
fn stands_before(
    text: &[u8],
    table: &[u32],
    ptext: &[u8],
    ptable: &[u32],
    rows: &[u32],
    cues: &[u32],
    i: usize,
    name: &[u8],
    past: bool,
) -> bool
    requires { MarkIn rows.now cues.now i }
    ensures { result ≡ stands_before past
        (order_of (part_at text.now table.now ptext.now ptable.now rows.now cues.now i) (decode name.now)) }
{
    match part_order_of(text, table, ptext, ptable, rows, cues, i, name) {
        Ordering::Less => true,
        Ordering::Equal => past,
        Ordering::Greater => false,
    }
}

// A place from a on and before b: the one that was hinted at, or, where that was looked at, a step from the end that is nearest to it, or
// the middle if that is nearer.
fn probe(a: usize, b: usize, near: usize, step: usize) -> usize
    requires { a < b }
    ensures { (a ≤ result) × (result < b) }
{
    let away = step.min((b - a) / 2);
    if near < a {
        return a + away;
    }
    if b <= near {
        return b - 1 - away;
    }
    near
}

// The next step, which stays the same after the hint itself. The end of a run is mostly near, so it is looked for in steps that double; for
// any other place the middle is best.
fn next_step(step: usize, room: usize, past: bool, reached: bool) -> usize
    ensures { result ≡ next_step step room past reached }
{
    if reached {
        return step;
    }
    if past {
        if step < room / 2 {
            return step + step + 1;
        }
        return step;
    }
    room
}

// Stands for no hint: no place of a list is as far.
const NOWHERE: usize = 4294967296;

// The first step of a search: none away from a hint, and to the middle if there is no hint.
fn first_step(near: usize, hi: usize) -> usize
    ensures { result ≡ cond (leb near hi) 0 hi }
{
    if near <= hi { 0 } else { hi }
}

// Where the entries of the next member may stand: behind those of this one, as long as members and entries stand in one order.
pub(crate) fn next_hint(hint: usize, run: Run) -> usize
    ensures { result ≡ next_hint hint run }
{
    if hint <= run.lo { run.hi } else { NOWHERE }
}

// The place in the words lo up to hi before which stand the entries whose part at hand is before the name, or, with `past`, is before it or
// the same. It is looked for at a hint first, since members and entries often stand in one order, and then by halving.
fn bound(
    text: &[u8],
    table: &[u32],
    ptext: &[u8],
    ptable: &[u32],
    rows: &[u32],
    cues: &[u32],
    lo: usize,
    hi: usize,
    name: &[u8],
    past: bool,
    near: usize,
) -> usize
    requires { RunCued rows.now cues.now lo hi }
    ensures { Bound text.now table.now ptext.now ptable.now rows.now cues.now lo hi (decode name.now) past result }
{
    let mut a = lo;
    let mut b = hi;
    let mut step = first_step(near, hi);
    while a < b {
        let m = probe(a, b, near, step);
        step = next_step(step, b - a, past, m == near);
        if stands_before(text, table, ptext, ptable, rows, cues, m, name, past) {
            a = m + 1;
        } else {
            b = m;
        }
    }
    a
}

// The entries of a run whose part at hand is the name at a row. They are looked for near a place first.
pub(crate) fn run_of(
    text: &[u8],
    table: &[u32],
    row: usize,
    ptext: &[u8],
    ptable: &[u32],
    rows: &[u32],
    cues: &[u32],
    run: Run,
    near: usize,
) -> Run
    requires { RunCued rows.now cues.now run.lo run.hi }
    ensures { RunOf text.now table.now ptext.now ptable.now rows.now cues.now run.lo run.hi (key_at text.now table.now row) result }
{
    let name = key_at(text, table, row);
    let from = run.lo;
    let to = run.hi;
    let lo = bound(
        text, table, ptext, ptable, rows, cues, from, to, name, false, near,
    );
    let hi = bound(
        text, table, ptext, ptable, rows, cues, lo, to, name, true, lo,
    );
    Run { lo, hi }
}
