// The two containers, and how an item of each begins (docs/RULES.md, 3.2).
ghost use Rattle.std.specs.Prelude.{◌≡◌};
ghost use Rattle.text.specs.Grammar as grammar;
ghost use Rattle.text.specs.Tree as tree;
ghost use Rattle.json_reader.specs.Readers.{container_of, bracket_of, NameAsks, ItemRead};

use crate::bytes::{CLOSE_ARRAY, CLOSE_OBJECT};
use crate::members::{ItemStart, read_key};
use crate::rows::{ARRAY, OBJECT};

// The two containers: they differ in their kind, their closing byte and their items.
#[derive(Clone, Copy)]
pub enum Container {
    Array,
    Object,
}

// The container of a kind: an array, or else an object.
pub(crate) fn container_of(kind: usize) -> Container
    ensures { result ≡ container_of kind }
{
    if kind == ARRAY {
        return Container::Array;
    }
    Container::Object
}

// The kind in a container's row.
pub(crate) fn kind_in(of: Container) -> usize
    ensures { result ≡ tree.bracket_kind (bracket_of of) }
{
    match of {
        Container::Array => ARRAY,
        Container::Object => OBJECT,
    }
}

// The byte that closes a container.
pub(crate) fn closing(of: Container) -> u16
    ensures { result ≡ grammar.closing (bracket_of of) }
{
    match of {
        Container::Array => CLOSE_ARRAY,
        Container::Object => CLOSE_OBJECT,
    }
}

// The item at a place: its name is put behind the names up to `end`.
pub(crate) fn item_at(
    text: &[u8],
    names: &mut [u32],
    of: Container,
    end: usize,
    at: usize,
) -> ItemStart
    requires { NameAsks text.now names.old end at }
    ensures { ItemRead of text.now end at names.old names.new result }
{
    match of {
        Container::Array => ItemStart::At(0, 0, at, end),
        Container::Object => read_key(text, names, end, at),
    }
}
