// The field at a place of a packing (docs/RULES.md, 10).
ghost use Rattle.std.specs.Prelude.{◌≡◌};
ghost use Rattle.laws.specs.Lists.{part_of, RunIn};
ghost use Rattle.vault.specs.Cuts.{CutTo};

use fields::HEAD;
use json_reader::names::slice;

// A field: its tag, and where its content starts and ends.
#[derive(Clone, Copy)]
pub(crate) struct Field {
    pub tag: usize,
    pub from: usize,
    pub end: usize,
}

impl Field {
    // Its content.
    pub(crate) fn content(self, packed: &[u8]) -> &[u8]
        ensures { result.now ≡ part_of packed.now self.from self.end }
    {
        slice(packed, self.from, self.end)
    }
}

// The field at a place, of fields that end at `end`.
pub(crate) fn cut_at(packed: &[u8], at: usize, end: usize) -> Option<Field>
    requires { RunIn packed.now at end }
    ensures { CutTo packed.now at end result }
{
    if end - at < HEAD {
        return None;
    }
    let from = at + HEAD;
    let len = packed[at + 1] as usize * 256 + packed[at + 2] as usize;
    if end - from < len {
        return None;
    }
    Some(Field {
        tag: packed[at] as usize,
        from,
        end: from + len,
    })
}
