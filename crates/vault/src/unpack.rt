// Unpacking: the compact text of the value that some bytes pack, or a refusal (docs/RULES.md, 10.3).
ghost use Rattle.std.specs.Prelude.{◌≡◌, length};
ghost use Rattle.text.specs.Limits.{base};
ghost use Rattle.packing.specs.Services.{Unpacks};
ghost use Rattle.packing.specs.Unpacked.{doc_in};
ghost use Rattle.vault.specs.Values.{Went};
ghost use Rattle.vault.specs.Unpack.{used_by, RestoresIn};

use crate::cuts::cut_at;
use crate::values::put_value;
use fields::walk::survey;
use json_reader::limits::{BYTES, DEPTH, VALUES};
use packing::UnpackRefusal;

// The whole packing: one field, and nothing behind it.
fn put_root(packed: &[u8], out: &mut [u8]) -> Option<usize>
    ensures { Went (doc_in base.depth packed.now) out.old 0 out.new result }
{
    let field = cut_at(packed, 0, packed.len())?;
    if field.end < packed.len() {
        return None;
    }
    put_value(packed, field, DEPTH, out, 0)
}

// The answer, by where the text would end. What was written of a text that is refused still stands there.
fn restore(packed: &[u8], out: &mut [u8]) -> Result<(usize, usize), UnpackRefusal>
    ensures { RestoresIn base packed.now out.old out.new result }
{
    let to = put_root(packed, out).ok_or(UnpackRefusal::NotPacked)?;
    let n = survey(packed).ok_or(UnpackRefusal::NotPacked)?;
    if VALUES < n {
        return Err(UnpackRefusal::NotPacked);
    }
    if BYTES < to {
        return Err(UnpackRefusal::NotPacked);
    }
    if out.len() < to {
        return Err(UnpackRefusal::TooShort(to));
    }
    Ok((n, to))
}

// How many bytes of the output are used.
fn bytes_used(a: Result<(usize, usize), UnpackRefusal>) -> usize
    ensures { result ≡ used_by a }
{
    match a {
        Ok((_, n)) => n,
        Err(_) => 0,
    }
}

// Unpacks: the compact text and zeros behind it, or the refusal and zeros alone.
pub fn unpack(packed: &[u8], out: &mut [u8]) -> Result<(usize, usize), UnpackRefusal>
    ensures { Unpacks base (length out.old) packed.now result out.new }
{
    let answer = restore(packed, out);
    let used = bytes_used(answer);
    out[used..].fill(0);
    answer
}
