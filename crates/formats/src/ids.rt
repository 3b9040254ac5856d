// Ids (docs/RULES.md, 5.3).
ghost use Rattle.std.specs.Prelude.{◌≡◌, true, false, cond, ltb};
ghost use Rattle.text.specs.Strings.{decode};
ghost use Rattle.contact.specs.Values.{id_byte, is_id};

use json_reader::decode::{next_byte, start};

// The most bytes of an Id.
const LONGEST: usize = 255;

// A letter, A-Z a-z.
fn is_letter(b: u8) -> bool
    ensures { result ≡ cond (ltb b 65) false (cond (ltb b 91) true (cond (ltb b 97) false (ltb b 123))) }
{
    match b {
        b'A'..=b'Z' => true,
        b'a'..=b'z' => true,
        _ => false,
    }
}

// A byte of an Id: A-Z a-z 0-9 - _
fn id_byte(b: u8) -> bool
    ensures { result ≡ id_byte b }
{
    if b == b'-' {
        return true;
    }
    if b == b'_' {
        return true;
    }
    if b.is_ascii_digit() {
        return true;
    }
    is_letter(b)
}

// Do a name's inner bytes decode to an Id, 1 to 255 such bytes? No more than 256 decoded bytes are looked at.
pub fn is_id(name: &[u8]) -> bool
    ensures { result ≡ is_id (decode name.now) }
{
    let mut at = start();
    let mut passed: usize = 0;
    while let Some((b, after)) = next_byte(name, at) {
        if passed == LONGEST {
            return false;
        }
        if !id_byte(b) {
            return false;
        }
        passed += 1;
        at = after;
    }
    0 < passed
}
