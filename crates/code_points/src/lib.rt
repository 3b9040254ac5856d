// Characters as numbers: which code points are characters, and the code point that a sequence of UTF-8 stands for (docs/RULES.md, 3.4). No text is read
// here: a byte is a number, 256 where there is none.
#![tactic(auto)]

ghost use Rattle.std.specs.Prelude.{◌≡◌};
ghost use Rattle.code_points.specs.Characters.{is_character};
ghost use Rattle.text.specs.Chars.{checked_at, tail_of, seq2, seq3, seq4};

use text::Fault;

// What stands for no code point: one more than the largest.
const NO_CODE: u32 = 0x110000;

// The six bits of a continuation byte, or 64.
pub fn tail(b: u16) -> u32
    ensures { result ≡ tail_of b }
{
    match b {
        0x80..=0xBF => (b - 0x80) as u32,
        _ => 64,
    }
}

// The code point of a sequence of two bytes, by its first byte and the six bits of the next, 64 where that is none; NO_CODE where it is no sequence, or
// a shorter one would do.
pub fn code2(b: u16, x: u32) -> u32
    ensures { result ≡ seq2 b x }
{
    if 63 < x {
        return NO_CODE;
    }
    let code = (b % 32) as u32 * 64 + x;
    if code < 128 { NO_CODE } else { code }
}

// The same of three bytes.
pub fn code3(b: u16, x: u32, y: u32) -> u32
    ensures { result ≡ seq3 b x y }
{
    if 63 < x {
        return NO_CODE;
    }
    if 63 < y {
        return NO_CODE;
    }
    let code = (b % 16) as u32 * 4096 + x * 64 + y;
    if code < 2048 { NO_CODE } else { code }
}

// The same of four bytes.
pub fn code4(b: u16, x: u32, y: u32, z: u32) -> u32
    ensures { result ≡ seq4 b x y z }
{
    if 63 < x {
        return NO_CODE;
    }
    if 63 < y {
        return NO_CODE;
    }
    if 63 < z {
        return NO_CODE;
    }
    let code = (b % 8) as u32 * 262144 + x * 4096 + y * 64 + z;
    if code < 65536 { NO_CODE } else { code }
}

// Is a code point a character? No surrogate is, no noncharacter, and none past the last.
pub fn is_character(code: u32) -> bool
    ensures { result ≡ is_character code }
{
    if code < 0xD800 {
        return true;
    }
    if code < 0xE000 {
        return false;
    }
    if code < 0xFDD0 {
        return true;
    }
    if code < 0xFDF0 {
        return false;
    }
    if 0x10FFFF < code {
        return false;
    }
    code % 65536 < 0xFFFE
}

// A character of `len` bytes at `at`, if its code point is one; else refusal 3 at `at`. As a part of its callers it hands over no answer by
// memory.
#[inline(always)]
pub fn checked(at: usize, code: u32, len: usize) -> Result<Option<(u32, usize)>, Fault<usize>>
    ensures { result ≡ checked_at at code len }
{
    if is_character(code) {
        Ok(Some((code, len)))
    } else {
        Err(Fault::Forbidden(at))
    }
}
