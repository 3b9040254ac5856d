// What packing and unpacking answer (docs/RULES.md, 10). The definitions of specs/ name these types, and the contracts of crate vault cite the definitions.
// There is no code here but what makes one answer of another.
#![tactic(auto)]

ghost use Rattle.std.specs.Prelude.{◌≡◌};
ghost use Rattle.packing.specs.declared.PackRefusal.TheVariants.{Given};

use text::Refusal;

// Why a text isn't packed: reading's refusal; 51, a content that is too long; 52, an output that is too short, with the bytes needed.
#[derive(Clone, Copy, Debug, PartialEq, Eq)]
pub enum PackRefusal {
    Given(Refusal),
    Wide,
    Short(usize),
}

// A text that isn't read isn't packed.
impl From<Refusal> for PackRefusal {
    ghost from_gives = { λ refusal r. r ≡ Given refusal };

    fn from(refusal: Refusal) -> PackRefusal {
        PackRefusal::Given(refusal)
    }
}

// Why bytes aren't unpacked: 53, nothing packs to these; or 52, an output that is too short, with the bytes needed.
#[derive(Clone, Copy, Debug, PartialEq, Eq)]
pub enum UnpackRefusal {
    NotPacked,
    TooShort(usize),
}
