// The buffers of the program, which are smaller than a text may be: the code has their sizes here alone, the definitions in specs/Line.antt.

// The bytes of its input that are judged; one byte more is 34.
pub const BUFFER: usize = 65536;

// The rows of the table that it lends; a text of more values is 7.
pub const ROWS: usize = 2048;
