// What judging and localizing answer. The definitions of specs/ name these types, and the contracts of the card layer cite the definitions.
// There is no code here but what makes one answer of another.
#![tactic(auto)]

ghost use Rattle.std.specs.Prelude.{◌≡◌};
ghost use Rattle.contact.specs.declared.CardRefusal.TheVariants.{Text, Card};

use text::Refusal;

// What is wrong with a card: numbers 11 to 14 of the refusal sheet, in its order, with the place of the value or object.
#[derive(Clone, Copy, Debug, PartialEq, Eq)]
pub enum CardFault {
    Kind(usize),
    Missing(usize),
    Value(usize),
    Rule(usize),
}

// Why a card is refused: by reading, or by the card rules.
#[derive(Clone, Copy, Debug, PartialEq, Eq)]
pub enum CardRefusal {
    Text(Refusal),
    Card(CardFault),
}

// A card is refused as its text is.
impl From<Refusal> for CardRefusal {
    ghost from_gives = { λ refusal r. r ≡ Text refusal };

    fn from(refusal: Refusal) -> CardRefusal {
        CardRefusal::Text(refusal)
    }
}

// A card is refused by what is wrong with it.
impl From<CardFault> for CardRefusal {
    ghost from_gives = { λ fault r. r ≡ Card fault };

    fn from(fault: CardFault) -> CardRefusal {
        CardRefusal::Card(fault)
    }
}

// Why no localized card is written: the card's own refusal, then numbers 21 to 28 of the sheet, in its order. 22 to 26 have the place of the key at
// fault, of its opening quote in the card text; 27 has the bytes needed, and 28 the refusal of the localized card, whose place is one in that card's text.
#[derive(Clone, Copy, Debug, PartialEq, Eq)]
pub enum LocalRefusal {
    Given(CardRefusal),
    NoLanguage,
    BadKey(usize),
    OwnLocalizations(usize),
    Clash(usize),
    InArray(usize),
    NoObject(usize),
    Short(usize),
    Inner(CardRefusal),
}
