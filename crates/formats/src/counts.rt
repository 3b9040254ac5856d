// Unsigned integers (docs/RULES.md, 5.3).
ghost use Rattle.std.specs.Prelude.{◌≡◌};
ghost use Rattle.contact.specs.Values.{is_count};

// The largest unsigned integer: 2^53 - 1.
const LARGEST: u64 = 9007199254740991;

// Is a number's token, which has a byte or more, an unsigned integer from low to high? It stops as soon as the digits passed are too large a number. (No
// bytes count as 0.)
pub fn is_count(token: &[u8], low: u64, high: u64) -> bool
    ensures { result ≡ is_count low high token.now }
{
    let mut value: u64 = 0;
    for b in token {
        if !b.is_ascii_digit() {
            return false;
        }
        value = 10 * value + (*b - b'0') as u64;
        if LARGEST < value {
            return false;
        }
    }
    if value < low {
        return false;
    }
    value <= high
}
