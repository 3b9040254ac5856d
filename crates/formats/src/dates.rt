// UTCDateTime (docs/RULES.md, 5.3): real days of the Gregorian calendar, and the time of day.
ghost use Rattle.std.specs.Prelude.{◌≡◌, false, cond, ◌∷◌, ◌-◌, ◌<◌, eqb};
ghost use Rattle.text.specs.Strings.{decode};
ghost use Rattle.text.specs.Tokens.{is_digit};
ghost use Rattle.contact.specs.Dates.{is_leap, days_of, is_day, two_at, in_range, fraction_ends, ends, is_time};
ghost use Rattle.json_reader.specs.Cursors.{rest};

use json_reader::bytes::{ZERO, peek};
use json_reader::decode::{Cursor, next_byte, start};

// The twelve month lengths; February has one day more in leap years.
const MONTHS: [u32; 12] = [31, 28, 31, 30, 31, 30, 31, 31, 30, 31, 30, 31];

// The bytes up to the seconds.
const HEAD: usize = 19;

// How a time begins, where d is any digit.
const SHAPE: [u8; HEAD] = *b"dddd-dd-ddTdd:dd:dd";

// Is it a leap year of the Gregorian calendar?
fn is_leap(year: u32) -> bool
    ensures { result ≡ is_leap year }
{
    if year % 4 != 0 {
        return false;
    }
    if year % 100 != 0 {
        return true;
    }
    year % 400 == 0
}

// Is it a February of 29 days?
fn is_long_february(year: u32, month: u32) -> bool
    ensures { result ≡ cond (eqb month 2) (is_leap year) false }
{
    if month != 2 {
        return false;
    }
    is_leap(year)
}

// The days of a month, 0 where there is no such month.
fn days_of(year: u32, month: u32) -> u32
    ensures { result ≡ days_of year month }
{
    if month < 1 {
        return 0;
    }
    if 12 < month {
        return 0;
    }
    if is_long_february(year, month) {
        return 29;
    }
    let at = (month - 1) as usize;
    MONTHS[at]
}

// Does the month of that year have the day?
fn is_day(year: u32, month: u32, day: u32) -> bool
    ensures { result ≡ is_day year month day }
{
    1 <= day && day <= days_of(year, month)
}

// May a byte stand where the shape has this one?
fn suits(shape: u8, b: u8) -> bool
    ensures { result ≡ cond (eqb shape 100) (is_digit b) (eqb shape b) }
{
    if shape == b'd' {
        b.is_ascii_digit()
    } else {
        shape == b
    }
}

// What a digit counts.
fn digit_of(b: u16) -> u32
    ensures { result ≡ b - 48 }
{
    b.saturating_sub(ZERO) as u32
}

// Two digits as a number.
fn two_at(head: &[u8], i: usize) -> u32
    requires { i < 19 }
    ensures { (result ≡ two_at head.now i) × (result < 4096) }
{
    let tens = digit_of(peek(head, i));
    let ones = digit_of(peek(head, i + 1));
    10 * tens + ones
}

// A real day, hour 00 to 23, minute and second 00 to 59.
fn in_range(head: &[u8]) -> bool
    ensures { result ≡ in_range head.now }
{
    let year = 100 * two_at(head, 0) + two_at(head, 2);
    if !is_day(year, two_at(head, 5), two_at(head, 8)) {
        return false;
    }
    if 23 < two_at(head, 11) {
        return false;
    }
    if 59 < two_at(head, 14) {
        return false;
    }
    two_at(head, 17) < 60
}

// The end of a fraction at a byte that is no digit: Z, with a digit before it that isn't 0 and nothing after it.
fn closes(content: &[u8], last: u8, b: u8, after: Cursor) -> bool
    requires { is_digit b ≡ false }
    ensures { result ≡ fraction_ends last (b ∷ rest content.now after) }
{
    if b != b'Z' {
        return false;
    }
    if last == b'0' {
        return false;
    }
    next_byte(content, after).is_none()
}

// The digits of a fraction and Z after them; a fraction doesn't end in 0.
fn fraction_ends(content: &[u8], from: Cursor) -> bool
    ensures { result ≡ fraction_ends 48 (rest content.now from) }
{
    let mut at = from;
    let mut last: u8 = b'0';
    while let Some((b, after)) = next_byte(content, at) {
        if !b.is_ascii_digit() {
            return closes(content, last, b, after);
        }
        last = b;
        at = after;
    }
    false
}

// After the seconds: Z, or a fraction and Z.
fn time_ends(content: &[u8], from: Cursor) -> bool
    ensures { result ≡ ends (rest content.now from) }
{
    let Some((b, after)) = next_byte(content, from) else {
        return false;
    };
    if b == b'.' {
        return fraction_ends(content, after);
    }
    if b != b'Z' {
        return false;
    }
    next_byte(content, after).is_none()
}

// Do a string's inner bytes decode to a UTCDateTime?
pub fn is_time(content: &[u8]) -> bool
    ensures { result ≡ is_time (decode content.now) }
{
    let mut head: [u8; HEAD] = [0; HEAD];
    let mut at = start();
    for i in 0..HEAD {
        let Some((b, after)) = next_byte(content, at) else {
            return false;
        };
        if !suits(SHAPE[i], b) {
            return false;
        }
        head[i] = b;
        at = after;
    }
    in_range(&head) && time_ends(content, at)
}
