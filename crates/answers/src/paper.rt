// The refusals of judging and localizing in the refusal sheet's numbers (docs/RULES.md, 2.1).
ghost use Rattle.std.specs.Prelude.{◌≡◌};
ghost use Rattle.text.specs.Sheet.{numbers};
ghost use Rattle.contact.specs.Verdict.{refused_fault, refused_card};
ghost use Rattle.contact.specs.Localize.{refused_local};

use crate::sheet::{OnPaper, line};
use contact::{CardFault, CardRefusal, LocalRefusal};
use text::Paper;

// 11 to 14, and the place of the value.
impl OnPaper for CardFault {
    ghost paper = { refused_fault };

    #[tactic(auto, unfolding(contact::specs::Verdict::refused_fault))]
    fn on_paper(self) -> Paper {
        match self {
            CardFault::Kind(p) => line(11, p, 0),
            CardFault::Missing(p) => line(12, p, 0),
            CardFault::Value(p) => line(13, p, 0),
            CardFault::Rule(p) => line(14, p, 0),
        }
    }
}

// The refusal of a card: of its text, or of what it says.
impl OnPaper for CardRefusal {
    ghost paper = { refused_card };

    #[tactic(auto, unfolding(contact::specs::Verdict::refused_card))]
    fn on_paper(self) -> Paper {
        match self {
            CardRefusal::Text(refusal) => refusal.on_paper(),
            CardRefusal::Card(fault) => fault.on_paper(),
        }
    }
}

// 28 hands out the inner refusal's number alone.
fn inner_on_paper(r: CardRefusal) -> Paper
    ensures { result ≡ numbers 28 (refused_card r).number 0 }
{
    let inner = r.on_paper();
    Paper {
        number: 28,
        second: inner.number,
        written: 0,
    }
}

// The refusal of localizing: 21 to 28, of which 22 to 26 have the place of the key; or that of the card that was given.
impl OnPaper for LocalRefusal {
    ghost paper = { refused_local };

    #[tactic(auto, unfolding(contact::specs::Localize::refused_local))]
    fn on_paper(self) -> Paper {
        match self {
            LocalRefusal::Given(c) => c.on_paper(),
            LocalRefusal::NoLanguage => line(21, 0, 0),
            LocalRefusal::BadKey(p) => line(22, p, 0),
            LocalRefusal::OwnLocalizations(p) => line(23, p, 0),
            LocalRefusal::Clash(p) => line(24, p, 0),
            LocalRefusal::InArray(p) => line(25, p, 0),
            LocalRefusal::NoObject(p) => line(26, p, 0),
            LocalRefusal::Short(n) => line(27, n, 0),
            LocalRefusal::Inner(c) => inner_on_paper(c),
        }
    }
}
