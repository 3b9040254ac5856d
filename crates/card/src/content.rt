// The content of a string (docs/RULES.md, 3.4): what its token has between the quotes.
ghost use Rattle.std.specs.Prelude.{◌≡◌, ◌-◌, length};
ghost use Rattle.laws.specs.Lists.{part_of};
ghost use Rattle.laws.specs.Order.{same};
ghost use Rattle.text.specs.Strings.{content_of};

use json_reader::names::{slice, slice_is};

// The inner bytes of a string whose token, quotes included, stands from a place up to another.
pub(crate) fn content(text: &[u8], from: usize, to: usize) -> &[u8]
    ensures { result.now ≡ part_of (part_of text.now from to) 1 (length (part_of text.now from to) - 1) }
{
    let token = slice(text, from, to);
    let size = token.len();
    if size < 1 {
        return slice(token, 1, 0);
    }
    slice(token, 1, size - 1)
}

// Is a string's content, decoded, the literal?
pub(crate) fn is_content(text: &[u8], from: usize, to: usize, lit: &[u8]) -> bool
    ensures { result ≡ same (content_of (part_of text.now from to)) lit.now }
{
    slice_is(content(text, from, to), lit)
}
