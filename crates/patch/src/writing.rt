// Values for a lent output (docs/RULES.md, 6.6): as they are, or as the entries of a patch leave them. No white space is written, and
// each token stays as it is.
ghost use Rattle.std.specs.Prelude.{◌≡◌};
ghost use Rattle.laws.specs.Lists.{RunIn};
ghost use Rattle.output.specs.Written.{Wrote};
ghost use Rattle.patch.specs.Copied.{open_byte, close_byte, head_of, label_in, Copied};
ghost use Rattle.patch.specs.Marks.{RunCued};
ghost use Rattle.patch.specs.Patched.{pen_behind, pen_hinted, RunAsks, EntryAsks, PutAddition, PutAdditions, Settled, is_nothing};
ghost use Rattle.patch.specs.Patched.{Ending, stray_of, PutReplaced, PutInside, PutMember, PutValue, PutCard};

use crate::children::key_at;
use crate::marks::{ARRIVES, IN_ARRAY, MET, NO_OBJECT, advance, end_all, meet};
use crate::names::{put_label, put_spelled};
use crate::runs::{Run, next_hint, run_of};
use json_reader::decode::cursor_at;
use json_reader::lookup::next_row;
use json_reader::rows::{ARRAY, NULL, OBJECT, kind, name_end, name_start, value_end, value_start};
use output::put::{put_byte, put_comma, put_run};
use pointers::keys::after_part;

// Where the next byte goes, whether the next member is the first of its object, and near which place of the list its entries may stand.
#[derive(Clone, Copy)]
struct Pen {
    pub to: usize,
    pub first: bool,
    pub hint: usize,
}

// The pen behind a member that was written up to a place.
fn behind(from: Pen, to: usize) -> Pen
    ensures { result ≡ pen_behind from to }
{
    Pen {
        to,
        first: false,
        ..from
    }
}

// The pen where it was, with a hint for the member after one whose entries are the run.
fn hinted(from: Pen, own: Run) -> Pen
    ensures { result ≡ pen_hinted from own }
{
    let hint = next_hint(from.hint, own);
    Pen { hint, ..from }
}

// ---- values as they are

// The opening bracket of an array or an object.
fn open_of(kind: usize) -> u8
    ensures { result ≡ open_byte kind }
{
    if kind == OBJECT { b'{' } else { b'[' }
}

// The closing one.
fn close_of(kind: usize) -> u8
    ensures { result ≡ close_byte kind }
{
    if kind == OBJECT { b'}' } else { b']' }
}

// What stands before the value at a row inside a container of the kind.
fn put_head(
    text: &[u8],
    table: &[u32],
    row: usize,
    kind: usize,
    first: bool,
    out: &mut [u8],
    at: usize,
) -> usize
    ensures { Wrote out.old at (head_of kind first (label_in text.now table.now row)) out.new result }
{
    let a = put_comma(first, out, at);
    if kind == OBJECT {
        let ns = name_start(table, row);
        let ne = name_end(table, row);
        let b = put_label(text, ns, ne, out, a);
        return put_byte(out, b, b':');
    }
    a
}

// The value at a row, whole.
fn copy_value(text: &[u8], table: &[u32], row: usize, out: &mut [u8], at: usize) -> usize
    ensures { Copied text.now table.now row out.old at out.new result }
{
    let k = kind(table, row);
    if k < ARRAY {
        let from = value_start(table, row);
        let to = value_end(table, row);
        return put_run(text, from, to, out, at);
    }
    let end = next_row(table, row);
    let mut p = put_byte(out, at, open_of(k));
    let mut first = true;
    let mut m = row + 1;
    while m < end {
        p = put_head(text, table, m, k, first, out, p);
        p = copy_value(text, table, m, out, p);
        first = false;
        m = next_row(table, m);
    }
    put_byte(out, p, close_of(k))
}

// ---- values as the entries of a patch leave them: the card's text and table, and those of the patch. `leave` is the row of a member of
// the card that is left out; row 0 is the card itself, so 0 leaves out none. The keys of all entries begin alike up to `shared`

// Does nothing follow a part?
fn is_nothing(o: Option<usize>) -> bool
    ensures { result ≡ is_nothing o }
{
    o.is_none()
}

// The member that the entry at the row e adds to an object that lacks it; none if it is null. Its name begins at a place of the entry's
// key.
fn put_addition(
    ptext: &[u8],
    ptable: &[u32],
    e: usize,
    place: usize,
    out: &mut [u8],
    from: Pen,
) -> Pen
    ensures { PutAddition ptext.now ptable.now e place out.old from out.new result }
{
    if kind(ptable, e) == NULL {
        return from;
    }
    let a = put_comma(from.first, out, from.to);
    let b = put_spelled(key_at(ptext, ptable, e), cursor_at(place), out, a);
    let d = put_byte(out, b, b':');
    let to = copy_value(ptext, ptable, e, out, d);
    behind(from, to)
}

// What becomes of the entry listed at i, where the members of its object have all been met and it met none of them: it adds one if this
// is its last part, and else its walk meets no object.
fn settle(
    ptext: &[u8],
    ptable: &[u32],
    rows: &[u32],
    cues: &[u32],
    walks: &mut [u8],
    i: usize,
    out: &mut [u8],
    from: Pen,
) -> Pen
    requires { EntryAsks rows.now cues.now walks.old i }
    ensures { Settled ptext.now ptable.now rows.now cues.now i walks.old walks.new out.old from out.new result }
{
    let cue = cues[i] as usize;
    let e = rows[i] as usize;
    if is_nothing(after_part(key_at(ptext, ptable, e), cue)) {
        walks[i] = ARRIVES;
        return put_addition(ptext, ptable, e, cue, out, from);
    }
    walks[i] = NO_OBJECT;
    from
}

// The members that the run of entries adds to the object whose members have been met, and its closing brace. An entry that met one costs
// no more than a look at its cue.
fn put_additions(
    ptext: &[u8],
    ptable: &[u32],
    rows: &[u32],
    cues: &[u32],
    walks: &mut [u8],
    run: Run,
    out: &mut [u8],
    from: Pen,
) -> usize
    requires { RunAsks rows.now cues.now walks.old run.lo run.hi }
    ensures { PutAdditions ptext.now ptable.now rows.now cues.now run.lo run.hi walks.old walks.new out.old from out.new result }
{
    let hi = run.hi;
    let mut i = run.lo;
    let mut s = from;
    while i < hi {
        let cue = cues[i] as usize;
        if cue < MET {
            s = settle(ptext, ptable, rows, cues, walks, i, out, s);
        }
        i += 1;
    }
    let to = s.to;
    put_byte(out, to, b'}')
}

// Does the first entry of a run, if there is one, end with its part at hand?
fn ends_first(
    ptext: &[u8],
    ptable: &[u32],
    rows: &[u32],
    cues: &[u32],
    lo: usize,
    hi: usize,
) -> bool
    requires { RunCued rows.now cues.now lo hi }
    ensures { Ending ptext.now ptable.now rows.now cues.now lo hi result }
{
    if hi <= lo {
        return false;
    }
    let key = key_at(ptext, ptable, rows[lo] as usize);
    is_nothing(after_part(key, cues[lo] as usize))
}

// The member at a row with the value of the entry at the row e; left out if that is null. Its own run, which is that entry, has met it
// and arrives.
fn put_replaced(
    text: &[u8],
    table: &[u32],
    row: usize,
    ptext: &[u8],
    ptable: &[u32],
    e: usize,
    cues: &mut [u32],
    walks: &mut [u8],
    own: Run,
    out: &mut [u8],
    from: Pen,
) -> Pen
    requires { RunIn cues.old own.lo own.hi × RunIn walks.old own.lo own.hi }
    ensures { PutReplaced text.now table.now row ptext.now ptable.now e own.lo own.hi cues.old cues.new walks.old walks.new out.old from
        out.new result }
{
    meet(cues, own.lo, own.hi, row);
    end_all(walks, own.lo, own.hi, ARRIVES);
    if kind(ptable, e) == NULL {
        return from;
    }
    let p = put_head(text, table, row, OBJECT, from.first, out, from.to);
    let to = copy_value(ptext, ptable, e, out, p);
    behind(from, to)
}

// The member at a row with its value as its own run leaves that: the entries of the run go on by one part, and then they have met the
// member.
#[cycle(put_inside_put_member_put_value)]
fn put_inside(
    text: &[u8],
    table: &[u32],
    row: usize,
    leave: usize,
    ptext: &[u8],
    ptable: &[u32],
    rows: &[u32],
    cues: &mut [u32],
    walks: &mut [u8],
    own: Run,
    out: &mut [u8],
    from: Pen,
    shared: usize,
) -> Pen
    requires { RunAsks rows.now cues.old walks.old own.lo own.hi }
    ensures { PutInside text.now table.now row leave ptext.now ptable.now rows.now own.lo own.hi shared cues.old cues.new walks.old walks.new
        out.old from out.new result }
{
    let p = put_head(text, table, row, OBJECT, from.first, out, from.to);
    if own.lo == own.hi {
        let to = copy_value(text, table, row, out, p);
        return behind(from, to);
    }
    advance(ptext, ptable, rows, cues, own.lo, own.hi, shared);
    let to = put_value(
        text, table, row, leave, ptext, ptable, rows, cues, walks, own, out, p, shared,
    );
    meet(cues, own.lo, own.hi, row);
    behind(from, to)
}

// The member at a row as the run leaves it: with its value or another, or left out. The entries that it meets are marked.
#[cycle(put_inside_put_member_put_value)]
fn put_member(
    text: &[u8],
    table: &[u32],
    row: usize,
    leave: usize,
    ptext: &[u8],
    ptable: &[u32],
    rows: &[u32],
    cues: &mut [u32],
    walks: &mut [u8],
    run: Run,
    out: &mut [u8],
    from: Pen,
    shared: usize,
) -> Pen
    requires { RunAsks rows.now cues.old walks.old run.lo run.hi }
    ensures { PutMember text.now table.now row leave ptext.now ptable.now rows.now run.lo run.hi shared cues.old cues.new walks.old walks.new
        out.old from out.new result }
{
    if row == leave {
        return from;
    }
    let own = run_of(text, table, row, ptext, ptable, rows, cues, run, from.hint);
    let s = hinted(from, own);
    let lo = own.lo;
    if ends_first(ptext, ptable, rows, cues, lo, own.hi) {
        let e = rows[lo] as usize;
        return put_replaced(text, table, row, ptext, ptable, e, cues, walks, own, out, s);
    }
    put_inside(
        text, table, row, leave, ptext, ptable, rows, cues, walks, own, out, s, shared,
    )
}

// Where the walks end that reach a value which is no object.
fn stray_of(kind: usize) -> u8
    ensures { result ≡ stray_of kind }
{
    if kind == ARRAY { IN_ARRAY } else { NO_OBJECT }
}

// The value at a row as the run leaves it, without the member to leave out; and where the walks of the run end. The walk calls itself on
// the remaining parts of the keys, for a run of them.
#[cycle(put_inside_put_member_put_value)]
fn put_value(
    text: &[u8],
    table: &[u32],
    row: usize,
    leave: usize,
    ptext: &[u8],
    ptable: &[u32],
    rows: &[u32],
    cues: &mut [u32],
    walks: &mut [u8],
    run: Run,
    out: &mut [u8],
    at: usize,
    shared: usize,
) -> usize
    requires { RunAsks rows.now cues.old walks.old run.lo run.hi }
    ensures { PutValue text.now table.now row leave ptext.now ptable.now rows.now run.lo run.hi shared cues.old cues.new walks.old walks.new
        out.old at out.new result }
{
    let k = kind(table, row);
    if k != OBJECT {
        end_all(walks, run.lo, run.hi, stray_of(k));
        return copy_value(text, table, row, out, at);
    }
    let end = next_row(table, row);
    let p = put_byte(out, at, b'{');
    let mut s = Pen {
        to: p,
        first: true,
        hint: run.lo,
    };
    let mut m = row + 1;
    while m < end {
        s = put_member(
            text, table, m, leave, ptext, ptable, rows, cues, walks, run, out, s, shared,
        );
        m = next_row(table, m);
    }
    put_additions(ptext, ptable, rows, cues, walks, run, out, s)
}

// The card, whose value is at the first row, without its localizations at the row `leave` and as the first n of the listed entries leave
// it; and where their walks end.
pub(crate) fn put_card(
    text: &[u8],
    table: &[u32],
    leave: usize,
    ptext: &[u8],
    ptable: &[u32],
    rows: &[u32],
    cues: &mut [u32],
    walks: &mut [u8],
    n: usize,
    out: &mut [u8],
    shared: usize,
) -> usize
    requires { RunAsks rows.now cues.old walks.old 0 n }
    ensures { PutCard text.now table.now leave ptext.now ptable.now rows.now n shared walks.new out.old out.new result }
{
    cues[..n].fill(0);
    let all = Run { lo: 0, hi: n };
    put_value(
        text, table, 0, leave, ptext, ptable, rows, cues, walks, all, out, 0, shared,
    )
}
