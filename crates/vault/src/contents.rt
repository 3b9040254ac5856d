// What fields hold that hold no others (docs/RULES.md, 10): decoded bytes of names and strings, numbers as written.
ghost use Rattle.std.specs.Prelude.{◌≡◌};
ghost use Rattle.laws.specs.Lists.{part_of};
ghost use Rattle.text.specs.Strings.{decode_from, decode, name_of};
ghost use Rattle.packing.specs.Packed.{content_in};
ghost use Rattle.output.specs.Written.{Wrote};
ghost use Rattle.vault.specs.Laid.{RawTo};

use json_reader::decode::{cursor_at, next_byte};
use json_reader::names::slice;
use json_reader::rows::{NUMBER, STRING};
use output::put::{put_byte, put_run};

// Where the first backslash is, or the end: the bytes before it stand for themselves.
fn raw_end(inner: &[u8]) -> usize
    ensures { RawTo inner.now result }
{
    inner
        .iter()
        .position(|b| *b == b'\\')
        .unwrap_or(inner.len())
}

// What is decoded of a string's inner bytes from a place on.
fn put_rest(inner: &[u8], from: usize, out: &mut [u8], at: usize) -> usize
    ensures { Wrote out.old at (decode_from inner.now from) out.new result }
{
    let mut p = at;
    let mut c = cursor_at(from);
    while let Some((b, on)) = next_byte(inner, c) {
        p = put_byte(out, p, b);
        c = on;
    }
    p
}

// A string's inner bytes, decoded. What stands before its first backslash, mostly all of it, is one run.
fn put_inner(inner: &[u8], out: &mut [u8], at: usize) -> usize
    ensures { Wrote out.old at (decode inner.now) out.new result }
{
    let end = raw_end(inner);
    let p = put_run(inner, 0, end, out, at);
    put_rest(inner, end, out, p)
}

// The name of a text whose bytes, without quotes, stand from one place up to another, decoded.
pub(crate) fn put_name(text: &[u8], ns: usize, ne: usize, out: &mut [u8], at: usize) -> usize
    ensures { Wrote out.old at (name_of text.now ns ne) out.new result }
{
    put_inner(slice(text, ns, ne), out, at)
}

// The content of a value of the kind, whose token stands from one place up to another.
pub(crate) fn put_content(
    text: &[u8],
    kind: usize,
    from: usize,
    to: usize,
    out: &mut [u8],
    at: usize,
) -> usize
    ensures { Wrote out.old at (content_in kind (part_of text.now from to)) out.new result }
{
    match kind {
        STRING => {
            let token = slice(text, from, to);
            put_name(token, 1, token.len().saturating_sub(1), out, at)
        }
        NUMBER => put_run(text, from, to, out, at),
        _ => at,
    }
}
