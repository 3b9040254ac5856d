// The refusals of packing and unpacking in the refusal sheet's numbers (docs/RULES.md, 2.1 and 10).
ghost use Rattle.std.specs.Prelude.{◌≡◌};
ghost use Rattle.packing.specs.Services.{refused_packing, refused_unpacking};

use crate::sheet::{OnPaper, line};
use packing::{PackRefusal, UnpackRefusal};
use text::Paper;

// That of the text; 51; or 52, with the bytes needed.
impl OnPaper for PackRefusal {
    ghost paper = { refused_packing };

    #[tactic(auto, unfolding(packing::specs::Services::refused_packing))]
    fn on_paper(self) -> Paper {
        match self {
            PackRefusal::Given(why) => why.on_paper(),
            PackRefusal::Wide => line(51, 0, 0),
            PackRefusal::Short(needed) => line(52, needed, 0),
        }
    }
}

// 53 has no place; 52, with the bytes needed.
impl OnPaper for UnpackRefusal {
    ghost paper = { refused_unpacking };

    #[tactic(auto, unfolding(packing::specs::Services::refused_unpacking))]
    fn on_paper(self) -> Paper {
        match self {
            UnpackRefusal::NotPacked => line(53, 0, 0),
            UnpackRefusal::TooShort(needed) => line(52, needed, 0),
        }
    }
}
