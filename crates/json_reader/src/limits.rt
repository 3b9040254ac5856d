// The limits of reading (docs/RULES.md, 3.1): the code has their values here alone, the definitions in `base`.

// The bytes of a text.
pub const BYTES: usize = 1048576;

// The arrays and objects that may be open at once.
pub const DEPTH: usize = 64;

// The values of a text.
pub const VALUES: usize = 32768;

// The words of a row.
pub const ROW_WORDS: usize = 8;
