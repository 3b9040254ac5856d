// Reading in pieces (docs/RULES.md, 9): where a reader stands inside a string or a number, and what is kept between two calls. There is no code
// here: the definitions of specs/ name these types, and the contracts of crate pieces cite the definitions.
#![tactic(auto)]

// Inside a string. The first number is the place of the sequence's first byte, or of the escape's backslash (of the high one, of a pair).
#[derive(Clone, Copy)]
pub enum Inner {
    // between two characters
    Plain,
    // after a backslash
    Escape(u32),
    // in a \u escape: so many digits are left after the next, and the value of those before
    Four(u32, u32, u32),
    // after a complete high surrogate escape; then its follower's backslash, its u, its first digit, with the high one
    Pair(u32, u32),
    PairU(u32, u32),
    Low1(u32, u32),
    Low2(u32, u32),
    // and its second digit, its third, with the value of its digits but the first
    Low3(u32, u32, u32),
    Low4(u32, u32, u32),
    // after the first byte of a sequence of three, of four, with its low bits
    Second3(u32, u32),
    Second4(u32, u32),
    // so many continuation bytes are left after the next, whichever they are, and the bits of those before
    Tails(u32, u32, u32),
}

// Inside a number, by what was last: a minus, a leading zero, digits of the whole part, the point, digits after it, the letter of the exponent, its sign,
// its digits.
#[derive(Clone, Copy)]
pub enum Figure {
    Minus,
    Nought,
    Whole,
    Point,
    Fraction,
    Exponent,
    Sign,
    Digits,
}

// What a byte does there: it continues the number; the number has ended before it; it can't continue, nor can the number end.
#[derive(Clone, Copy)]
pub enum Turn {
    Goes(Figure),
    Ends,
    Stuck,
}

// What a caller keeps between two calls: a few machine words. Any words mean some state (specs/Held.antt).
#[derive(Clone, Copy)]
pub struct Held {
    // so many bytes were taken, so many values began, so many arrays and objects are open
    pub place: u32,
    pub values: u32,
    pub depth: u32,
    // a bit for each of these, the innermost the lowest: 0 an array, 1 an object
    pub opened: u64,
    // where in the grammar, or the answer
    pub spot: u32,
    // where the character that is open begins, or the answer's second number; the bits of it that are known; the high surrogate before it
    pub from: u32,
    pub bits: u32,
    pub high: u32,
}
