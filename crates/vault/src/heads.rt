// Heads of fields (docs/RULES.md, 10): a field's content is written first, behind the place of its head, and then the head, which says how long it is.
ghost use Rattle.std.specs.Prelude.{◌≡◌, ◌+◌, ◌-◌};
ghost use Rattle.std.proofs.lemmas.List.Edits.{sets};
ghost use Rattle.output.specs.Written.{CountedPlace};
ghost use Rattle.vault.specs.Laid.{head_size, head_of};

use fields::HEAD;
use output::put::{FULL, put_byte};

// The tag of a name's field. A value's is its kind.
pub(crate) const NAME: usize = 8;

// Where the content begins of a field at a place.
pub(crate) fn behind_head(at: usize) -> usize
    ensures { CountedPlace (at + head_size) result }
{
    if FULL <= at {
        return at;
    }
    at + HEAD
}

// The head of a field whose content ends at a place. Where two bytes can't say the length the head is wrong: such a packing is refused as a whole (51).
pub(crate) fn put_head(tag: usize, at: usize, end: usize, out: &mut [u8])
    ensures { out.new ≡ sets out.old at (head_of tag (end - at - head_size)) }
{
    let n = end.saturating_sub(at).saturating_sub(HEAD);
    let p = put_byte(out, at, (tag % 256) as u8);
    let q = put_byte(out, p, (n / 256 % 256) as u8);
    put_byte(out, q, (n % 256) as u8);
}
