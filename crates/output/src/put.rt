// Bytes for a lent output (docs/RULES.md, 6.7): each is counted, and stored where it fits. So the count says how long the output has to be.
ghost use Rattle.std.specs.Prelude.{◌≡◌, cond, [], ◌∷◌, ◌<◌};
ghost use Rattle.std.proofs.lemmas.List.Edits.{sets};
ghost use Rattle.laws.specs.Lists.{part_of, RunIn};
ghost use Rattle.text.specs.Tree.{square, curly};
ghost use Rattle.text.specs.Grammar.{opening, closing};
ghost use Rattle.text.specs.Writing.{comma, small_hex, spelled_byte, coded};
ghost use Rattle.output.specs.Written.{Wrote, short_escape};

// Counting stops here: no lent output has so many bytes.
pub const FULL: usize = 9223372036854775808;

// One byte.
pub fn put_byte(out: &mut [u8], at: usize, b: u8) -> usize
    ensures { Wrote out.old at (b ∷ []) out.new result }
{
    if FULL <= at {
        return at;
    }
    if out.len() <= at {
        return at + 1;
    }
    out[at] = b;
    at + 1
}

// Stores the bytes of a text from one place up to another, as far as there is room: one run, whose end is known before it begins.
fn store_run(text: &[u8], from: usize, to: usize, out: &mut [u8], at: usize)
    requires { RunIn text.now from to }
    ensures { out.new ≡ sets out.old at (part_of text.now from to) }
{
    if out.len() <= at {
        return;
    }
    let n = (to - from).min(out.len() - at);
    for k in 0..n {
        out[at + k] = text[from + k];
    }
}

// The bytes of a text from one place up to another, or none where they are not inside.
pub fn put_run(text: &[u8], from: usize, to: usize, out: &mut [u8], at: usize) -> usize
    ensures { Wrote out.old at (part_of text.now from to) out.new result }
{
    if text.len() < to || to <= from || FULL <= at {
        return at;
    }
    store_run(text, from, to, out, at);
    at + (to - from)
}

// A comma, unless it would be before the first.
pub fn put_comma(first: bool, out: &mut [u8], at: usize) -> usize
    ensures { Wrote out.old at (comma first) out.new result }
{
    if first {
        return at;
    }
    put_byte(out, at, b',')
}

// The opening bracket of an object, or else of an array.
pub fn open_of(object: bool) -> u8
    ensures { result ≡ opening (cond object curly square) }
{
    if object { b'{' } else { b'[' }
}

// The closing one.
pub fn close_of(object: bool) -> u8
    ensures { result ≡ closing (cond object curly square) }
{
    if object { b'}' } else { b']' }
}

// The letter of a byte's short escape, if it has one.
fn short_of(b: u8) -> Option<u8>
    ensures { result ≡ short_escape b }
{
    match b {
        b'"' => Some(b'"'),
        b'\\' => Some(b'\\'),
        8 => Some(b'b'),
        b'\t' => Some(b't'),
        b'\n' => Some(b'n'),
        12 => Some(b'f'),
        b'\r' => Some(b'r'),
        _ => None,
    }
}

// What `a` would be if it stood for 0: it is ten.
const SMALL_TEN: u8 = b'a' - 10;

// A small hexadecimal digit.
fn small_hex(n: u8) -> u8
    requires { n < 16 }
    ensures { result ≡ small_hex n }
{
    if n < 10 { b'0' + n } else { SMALL_TEN + n }
}

// A byte below 32, by \u00 and two digits.
fn put_coded(b: u8, out: &mut [u8], at: usize) -> usize
    requires { b < 32 }
    ensures { Wrote out.old at (coded b) out.new result }
{
    let p = put_run(b"\\u00", 0, 4, out, at);
    let q = put_byte(out, p, small_hex(b / 16));
    put_byte(out, q, small_hex(b % 16))
}

// A byte of a new name or string: escaped only where it must be.
pub fn put_spelled_byte(b: u8, out: &mut [u8], at: usize) -> usize
    ensures { Wrote out.old at (spelled_byte b) out.new result }
{
    if let Some(short) = short_of(b) {
        let p = put_byte(out, at, b'\\');
        return put_byte(out, p, short);
    }
    if b < b' ' {
        return put_coded(b, out, at);
    }
    put_byte(out, at, b)
}
