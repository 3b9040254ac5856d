// What is marked of the entries while they are walked (docs/RULES.md, 6.3), by their places in the sorted list. A word, the cue: below MET
// the place in the entry's key where its part at hand begins; from MET on the entry has met a member of the object at hand, and the rest is
// that member's row. And a byte: where the walk ends.
ghost use Rattle.std.specs.Prelude.{◌≡◌, true, ◌<◌};
ghost use Rattle.laws.specs.Lists.{RunIn};
ghost use Rattle.patch.specs.Marks.{PlaceWord, MetWord, FilledWith, MetWith, RunCued, NextCue, Advanced, AdvancedBy};
ghost use Rattle.patch.specs.Marks.{AllAt, PassesSlash, SharedStep};

use crate::children::key_at;
use json_reader::bytes::{SLASH, peek};
use pointers::keys::after_part;

// No card has a key as long as this, nor as many rows.
pub(crate) const MET: usize = 2147483648;

// The walk arrives at an object, goes inside an array (25), or meets no object (26).
pub(crate) const ARRIVES: u8 = 0;

pub(crate) const IN_ARRAY: u8 = 1;

pub(crate) const NO_OBJECT: u8 = 2;

// A place as a cue, or 0 if it is too large for one.
fn place_word(at: usize) -> u32
    ensures { PlaceWord at result }
{
    if MET <= at {
        return 0;
    }
    at as u32
}

// A member's row as a cue.
fn met_word(row: usize) -> u32
    ensures { MetWord row result }
{
    if MET <= row {
        return 0;
    }
    (MET + row) as u32
}

// The cues from lo up to hi become one word.
fn fill(cues: &mut [u32], lo: usize, hi: usize, w: u32)
    requires { RunIn cues.old lo hi }
    ensures { FilledWith cues.old lo hi w cues.new }
{
    cues[lo..hi].fill(w);
}

// The entries from lo up to hi have met the member at a row.
pub(crate) fn meet(cues: &mut [u32], lo: usize, hi: usize, row: usize)
    requires { RunIn cues.old lo hi }
    ensures { MetWith cues.old lo hi row cues.new }
{
    let w = met_word(row);
    fill(cues, lo, hi, w);
}

// The walks of the entries from lo up to hi end so.
pub(crate) fn end_all(walks: &mut [u8], lo: usize, hi: usize, code: u8)
    requires { RunIn walks.old lo hi }
    ensures { FilledWith walks.old lo hi code walks.new }
{
    walks[lo..hi].fill(code);
}

// Where the part after the one at a place of a key begins, as a cue; 0 if there is none.
fn next_cue(key: &[u8], at: usize) -> u32
    ensures { NextCue key.now at result }
{
    match after_part(key, at) {
        None => 0,
        Some(to) => place_word(to),
    }
}

// The entries from lo up to hi go on to their next parts, each by its own key.
fn advance_each(ptext: &[u8], ptable: &[u32], rows: &[u32], cues: &mut [u32], lo: usize, hi: usize)
    requires { RunCued rows.now cues.old lo hi }
    ensures { Advanced ptext.now ptable.now rows.now lo hi cues.old cues.new }
{
    for i in lo..hi {
        let key = key_at(ptext, ptable, rows[i] as usize);
        cues[i] = next_cue(key, cues[i] as usize);
    }
}

// Are the cues from lo up to hi all this one?
fn all_at(cues: &[u32], lo: usize, hi: usize, cue: u32) -> bool
    requires { RunIn cues.now lo hi }
    ensures { result ≡ true → AllAt cues.now lo hi cue }
{
    for i in lo..hi {
        if cues[i] != cue {
            return false;
        }
    }
    true
}

// Where the part after the one at a place of a key begins, if a slash before `most` ends that one; else 0, which is behind no slash.
fn behind_slash(key: &[u8], at: usize, most: usize) -> u32
    ensures { 0 < result → PassesSlash key.now at most result }
{
    let mut to = at;
    while to < most {
        if peek(key, to) == SLASH {
            let next = to + 1;
            return place_word(next);
        }
        to += 1;
    }
    0
}

// Where the next part of each of the entries from lo up to hi begins, told by the key of the first alone: all keys begin alike up to
// `shared`. 0 if it can't be told so, or there is no other key to spare.
fn shared_step(
    ptext: &[u8],
    ptable: &[u32],
    rows: &[u32],
    cues: &[u32],
    lo: usize,
    hi: usize,
    shared: usize,
) -> u32
    requires { RunCued rows.now cues.now lo hi }
    ensures { SharedStep ptext.now ptable.now rows.now cues.now lo hi shared result }
{
    if hi - lo < 2 {
        return 0;
    }
    let cue = cues[lo];
    let at = cue as usize;
    if shared <= at {
        return 0;
    }
    if !all_at(cues, lo, hi, cue) {
        return 0;
    }
    let key = key_at(ptext, ptable, rows[lo] as usize);
    behind_slash(key, at, shared)
}

// The entries from lo up to hi go on to their next parts. While these are in what all keys begin with, only one key is looked at: the
// others are mostly far apart in memory.
pub(crate) fn advance(
    ptext: &[u8],
    ptable: &[u32],
    rows: &[u32],
    cues: &mut [u32],
    lo: usize,
    hi: usize,
    shared: usize,
)
    requires { RunCued rows.now cues.old lo hi }
    ensures { AdvancedBy ptext.now ptable.now rows.now lo hi shared cues.old cues.new }
{
    let next = shared_step(ptext, ptable, rows, cues, lo, hi, shared);
    if next == 0 {
        advance_each(ptext, ptable, rows, cues, lo, hi);
        return;
    }
    fill(cues, lo, hi, next);
}
