// What the functions of reading answer. The definitions of specs/ name these types, and the contracts of the reading layer cite the definitions.
// There is no code here but what makes one answer of another.
#![tactic(auto)]

ghost use Rattle.std.specs.Prelude.{◌≡◌};
ghost use Rattle.text.specs.Sheet.{refusal_of};

// What is wrong with a token or a character, at a place: it doesn't fit the grammar (2), or stands for no character that a text may hold (3).
#[derive(Clone, Copy, Debug, PartialEq, Eq)]
pub enum Fault<P> {
    Malformed(P),
    Forbidden(P),
}

// Why a text is not read: numbers 1 to 7 of the refusal sheet, in its order. Each carries its second number: a place, or the rows needed.
#[derive(Clone, Copy, Debug, PartialEq, Eq)]
pub enum Refusal {
    TooLong,
    Grammar(usize),
    Character(usize),
    Repeated(usize),
    Deep(usize),
    Many(usize),
    Small(usize),
}

// A text is refused by the fault of its token or character, at the same place.
impl From<Fault<usize>> for Refusal {
    ghost from_gives = { λ fault r. r ≡ refusal_of fault };

    fn from(fault: Fault<usize>) -> Refusal {
        match fault {
            Fault::Malformed(place) => Refusal::Grammar(place),
            Fault::Forbidden(place) => Refusal::Character(place),
        }
    }
}

// An answer on paper: 0 or the refusal's number; the row count or the refusal's second number; and the bytes written, which only localizing has.
#[derive(Clone, Copy, Debug, PartialEq, Eq)]
pub struct Paper {
    pub number: u64,
    pub second: u64,
    pub written: u64,
}
