// The notation of stored cases: a line of printable bytes becomes a text.
//   %hh       the byte with those two small hexadecimal digits
//   %*N,K;    N bytes more, each the one that stands K bytes before it
//   %#N,K,S;  N times more the K bytes that stand before, each time with S added to the digits in them, which are taken as one number
//   %=A,B;    the bytes of the base text from A up to B
// and every other byte stands for itself. What doesn't fit into ROOM bytes is dropped.
ghost use Rattle.std.specs.Prelude.{◌<◌, ◌≤◌, ◌≡◌, length};
ghost use Rattle.std.specs.Slice.Iter.{iter_rest};
ghost use Rattle.cases_run.specs.Counts.{IsPrefixLen, IsCut, Fits, Keeps};

use std::slice::Iter;

// The longest text of a case.
pub const ROOM: usize = 1050000;

// What stands before the first such byte and what stands after it, or all and nothing.
pub fn cut(line: &[u8], byte: u8) -> (&[u8], &[u8])
    ensures { IsCut line.now result.0.now result.1.now }
{
    match line.iter().position(|b| *b == byte) {
        Some(at) => (&line[..at], &line[at + 1..]),
        None => (line, &[]),
    }
}

// The number whose decimal digits come next; the byte that ends them is passed too.
fn count(bytes: &mut Iter<'_, u8>) -> usize
    ensures { length (iter_rest bytes.new) ≤ length (iter_rest bytes.old) }
{
    let mut value = 0;
    while let Some(b @ b'0'..=b'9') = bytes.next().copied() {
        value = value % 999999 * 10 + usize::from(b - b'0');
    }
    value
}

// The number whose decimal digits begin a line.
pub fn number(line: &[u8]) -> usize {
    count(&mut line.iter())
}

// The value of a small hexadecimal digit, or 0.
fn digit(byte: Option<&u8>) -> u8
    ensures { result < 16 }
{
    match byte.copied() {
        Some(b @ b'0'..=b'9') => b - b'0',
        Some(b @ b'a'..=b'f') => b - b'a' + 10,
        _ => 0,
    }
}

// Adds to the digits among some bytes, taken as one number; what doesn't fit is dropped.
fn raise(bytes: &mut [u8], more: usize) {
    let mut carry = more;
    for b in bytes.iter_mut().rev() {
        if let b'0'..=b'9' = *b {
            let sum = carry % 9999999 + usize::from(*b - b'0');
            *b = b'0' + (sum % 10) as u8;
            carry = sum / 10;
        }
    }
}

// A text that is put together at the start of a buffer.
#[derive(Drop)]
struct Text<'a> {
    buffer: &'a mut [u8],
    len: usize,
}

impl Text<'_> {
    // Puts a byte, where there is room.
    fn push(&mut self, byte: u8)
        requires { Fits self.old }
        ensures fits { Fits self.new }
        ensures keeps { Keeps self.old self.new }
    {
        if self.len < self.buffer.len() {
            self.buffer[self.len] = byte;
            self.len += 1;
        }
    }

    // The byte that stands `back` bytes before the end, or 0.
    fn earlier(&self, back: usize) -> u8 {
        match self.len.checked_sub(back) {
            Some(at) if at < self.buffer.len() => self.buffer[at],
            _ => 0,
        }
    }

    // Puts `more` bytes, each the one that stands `back` bytes before it.
    fn again(&mut self, more: usize, back: usize)
        requires { Fits self.old }
        ensures fits { Fits self.new }
        ensures keeps { Keeps self.old self.new }
    {
        for _ in 0..more {
            let byte = self.earlier(back);
            self.push(byte);
        }
    }

    // Puts `more` times the `size` bytes that stand before, each time with `step` added to the digits in them.
    fn count_on(&mut self, more: usize, size: usize, step: usize)
        requires { Fits self.old }
        ensures fits { Fits self.new }
        ensures keeps { Keeps self.old self.new }
    {
        for _ in 0..more {
            self.again(size, size);
            let from = self.len.saturating_sub(size);
            raise(&mut self.buffer[from..self.len], step);
        }
    }

    // Puts bytes.
    fn extend(&mut self, bytes: &[u8])
        requires { Fits self.old }
        ensures fits { Fits self.new }
        ensures keeps { Keeps self.old self.new }
    {
        for b in bytes {
            self.push(*b);
        }
    }

    // Puts what stands after a percent sign, which is passed.
    fn special(&mut self, bytes: &mut Iter<'_, u8>, base: &[u8])
        requires { Fits self.old }
        ensures fits { Fits self.new }
        ensures keeps { Keeps self.old self.new }
        ensures passed { length (iter_rest bytes.new) ≤ length (iter_rest bytes.old) }
    {
        let kind = bytes.next();
        match kind {
            Some(b'*') => {
                let more = count(bytes);
                let back = count(bytes);
                self.again(more, back);
            }
            Some(b'#') => {
                let more = count(bytes);
                let size = count(bytes);
                let step = count(bytes);
                self.count_on(more, size, step);
            }
            Some(b'=') => {
                let from = count(bytes);
                let to = count(bytes).min(base.len());
                if from < to {
                    self.extend(&base[from..to]);
                }
            }
            _ => {
                let high = digit(kind);
                self.push(high * 16 + digit(bytes.next()));
            }
        }
    }
}

// Puts the text that a line stands for, and returns its length.
pub fn unpack(line: &[u8], base: &[u8], out: &mut [u8]) -> usize
    ensures { IsPrefixLen result out.new }
{
    let mut text = Text {
        buffer: out,
        len: 0,
    };
    let mut bytes = line.iter();
    while let Some(byte) = bytes.next() {
        if *byte == b'%' {
            text.special(&mut bytes, base);
        } else {
            text.push(*byte);
        }
    }
    text.len
}
