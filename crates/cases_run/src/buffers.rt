// The buffers that are lent to a call, and sums of them that can be stored. They are made once: only what a call is lent is set before it, and summed after it.
ghost use Rattle.std.specs.Prelude.{◌≡◌, length, min};

// The words of the largest table of a case.
pub const WORDS: usize = 262200;

// What a case is lent: the base text, and buffers for its text, an output and a table.
#[derive(Drop)]
pub struct Buffers<'a> {
    pub base: &'a [u8],
    pub text: &'a mut [u8],
    pub out: &'a mut [u8],
    pub table: &'a mut [u32],
}

// So many elements at a buffer's start, or all: each is set, so that what a call leaves untouched is seen.
pub fn lent<T: Copy>(buffer: &mut [T], wanted: usize, value: T) -> &mut [T]
    ensures { length result.now ≡ min wanted (length buffer.old) }
{
    let n = wanted.min(buffer.len());
    let part = &mut buffer[..n];
    part.fill_with(|| value);
    part
}

// A sum with one number more.
fn and_number(sum: u64, n: u32) -> u64 {
    (sum % 4294967291 * 65599 + u64::from(n)) % 4294967291
}

// A sum of a table's words or a buffer's bytes: 0 if all are zero.
pub fn sum_of<T: Copy + Into<u32>>(numbers: &[T]) -> u64 {
    numbers
        .iter()
        .fold(0, |sum, n| and_number(sum, (*n).into()))
}
