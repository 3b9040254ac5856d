// The byte at a place of a text, and the bytes that have a meaning in one (docs/RULES.md, 3.2 and 3.4).
ghost use Rattle.std.specs.Prelude.{◌≡◌, ◌≤◌};
ghost use Rattle.text.specs.Text.{byte_at};

// Bytes that reading tests for, as wide as what `peek` gives.
pub const QUOTE: u16 = b'"' as u16;

pub const BACKSLASH: u16 = b'\\' as u16;

pub const COLON: u16 = b':' as u16;

pub const COMMA: u16 = b',' as u16;

pub const SPACE: u16 = b' ' as u16;

pub(crate) const TAB: u16 = b'\t' as u16;

pub(crate) const LINE_FEED: u16 = b'\n' as u16;

pub(crate) const RETURN: u16 = b'\r' as u16;

pub const MINUS: u16 = b'-' as u16;

pub const PLUS: u16 = b'+' as u16;

pub const POINT: u16 = b'.' as u16;

pub const ZERO: u16 = b'0' as u16;

pub const NINE: u16 = b'9' as u16;

pub const SLASH: u16 = b'/' as u16;

pub const TILDE: u16 = b'~' as u16;

pub(crate) const LARGE_A: u16 = b'A' as u16;

pub(crate) const LARGE_F: u16 = b'F' as u16;

pub(crate) const SMALL_A: u16 = b'a' as u16;

pub(crate) const SMALL_B: u16 = b'b' as u16;

pub const SMALL_E: u16 = b'e' as u16;

pub const LARGE_E: u16 = b'E' as u16;

pub const SMALL_F: u16 = b'f' as u16;

pub const SMALL_N: u16 = b'n' as u16;

pub(crate) const SMALL_O: u16 = b'o' as u16;

pub(crate) const SMALL_R: u16 = b'r' as u16;

pub const SMALL_T: u16 = b't' as u16;

pub const SMALL_U: u16 = b'u' as u16;

pub const OPEN_ARRAY: u16 = b'[' as u16;

pub const CLOSE_ARRAY: u16 = b']' as u16;

pub const OPEN_OBJECT: u16 = b'{' as u16;

pub const CLOSE_OBJECT: u16 = b'}' as u16;

// What is behind the digits, and what `A` and `a` would be if they stood for 0: the first digit above 9 is ten.
pub(crate) const BEHIND_NINE: u16 = NINE + 1;

pub(crate) const LARGE_TEN: u16 = LARGE_A - 10;

pub(crate) const SMALL_TEN: u16 = SMALL_A - 10;

// What `peek` gives where the text is over.
pub const OVER: u16 = 256;

// The byte at a place, or 256 at or past the end.
pub fn peek(text: &[u8], at: usize) -> u16
    ensures value { result ≡ byte_at text.now at }
    ensures small { result ≤ 256 }
{
    if at < text.len() {
        text[at] as u16
    } else {
        OVER
    }
}
