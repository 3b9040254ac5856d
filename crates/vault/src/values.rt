// The value of a field, checked and written as compact text (docs/RULES.md, 10.3). Whatever is wrong is 53, so the first fault ends the walk. Limits other than
// the depth, and repeated names, are asked elsewhere.
ghost use Rattle.std.specs.Prelude.{◌≡◌, ◌≤◌, ◌<◌, ℕ};
ghost use Rattle.laws.specs.Lists.{part_of, RunIn};
ghost use Rattle.text.specs.Text.{bytes};
ghost use Rattle.packing.specs.Unpacked.{bare, simple_of, value_of};
ghost use Rattle.vault.specs.Values.{Went, LeadsName, LeadsItem};

use crate::cuts::{Field, cut_at};
use crate::heads::NAME;
use crate::strings::{is_number, is_text, put_string};
use json_reader::rows::{ARRAY, FALSE, NULL, NUMBER, OBJECT, STRING, TRUE};
use output::put::{close_of, open_of, put_byte, put_comma, put_run};

// A word, whose field has no content.
fn put_bare(content: &[u8], word: &[u8], out: &mut [u8], at: usize) -> Option<usize>
    ensures { (kind : ℕ) → Went (bare kind word.now content.now) out.old at out.new result }
{
    if content.len() != 0 {
        return None;
    }
    Some(put_run(word, 0, word.len(), out, at))
}

// A value that holds no others, by its tag: a word, a number as it stands, or a string.
fn put_simple(content: &[u8], tag: usize, out: &mut [u8], at: usize) -> Option<usize>
    ensures { Went (simple_of tag content.now) out.old at out.new result }
{
    match tag {
        NULL => put_bare(content, b"null", out, at),
        FALSE => put_bare(content, b"false", out, at),
        TRUE => put_bare(content, b"true", out, at),
        NUMBER if is_number(content) => Some(put_run(content, 0, content.len(), out, at)),
        STRING if is_text(content) => Some(put_string(content, out, at)),
        _ => None,
    }
}

// A member's name and its colon; the field of its value, and where the value is to be written.
fn put_name(
    packed: &[u8],
    at: usize,
    end: usize,
    out: &mut [u8],
    to: usize,
) -> Option<(Field, usize)>
    requires { RunIn packed.now at end }
    ensures { LeadsName packed.now at end out.old to out.new result }
{
    let name = cut_at(packed, at, end)?;
    if name.tag != NAME {
        return None;
    }
    let content = name.content(packed);
    if !is_text(content) {
        return None;
    }
    let p = put_string(content, out, to);
    let q = put_byte(out, p, b':');
    Some((cut_at(packed, name.end, end)?, q))
}

// What stands before a value inside an array or an object; the field of the value, and where the value is to be written.
fn put_ahead(
    packed: &[u8],
    tag: usize,
    first: bool,
    at: usize,
    end: usize,
    out: &mut [u8],
    to: usize,
) -> Option<(Field, usize)>
    requires { RunIn packed.now at end }
    ensures { LeadsItem packed.now tag first at end out.old to out.new result }
{
    let p = put_comma(first, out, to);
    if tag == OBJECT {
        return put_name(packed, at, end, out, p);
    }
    Some((cut_at(packed, at, end)?, p))
}

// The value of a field, where so many containers may be opened. Each opens one, so the depth is the measure.
pub(crate) fn put_value(
    packed: &[u8],
    field: Field,
    depth: usize,
    out: &mut [u8],
    at: usize,
) -> Option<usize>
    requires { RunIn packed.now field.from field.end }
    ensures { Went (value_of depth field.tag (part_of packed.now field.from field.end)) out.old at out.new result }
{
    if field.tag < ARRAY {
        return put_simple(field.content(packed), field.tag, out, at);
    }
    if OBJECT < field.tag {
        return None;
    }
    if depth == 0 {
        return None;
    }
    let mut p = put_byte(out, at, open_of(field.tag == OBJECT));
    let mut i = field.from;
    while i < field.end {
        let (inner, to) = put_ahead(packed, field.tag, i == field.from, i, field.end, out, p)?;
        p = put_value(packed, inner, depth - 1, out, to)?;
        i = inner.end;
    }
    Some(put_byte(out, p, close_of(field.tag == OBJECT)))
}
