// How an item of a container begins (docs/RULES.md, 3.2): a member's name, which counts as soon as it is closed (3.5), its colon, and the place of its value.
ghost use Rattle.std.specs.Prelude.{◌<◌, ◌≤◌, length};
ghost use Rattle.json_reader.specs.Rows.{Word};
ghost use Rattle.json_reader.specs.Readers.{Coloned, RoomFor, Put, NameAsks, ItemRead};
ghost use Rattle.json_reader.specs.declared.containers.Container.TheVariants.{Object};

use crate::bytes::{COLON, QUOTE, peek};
use crate::strings::string_end;
use crate::tokens::skip;
use text::Refusal;

// How an item begins: the places of its name, 0 and 0 where it has none, and the place of its value; or the refusal. Last, where the names end that were
// put aside.
#[derive(Clone, Copy)]
pub enum ItemStart {
    At(usize, usize, usize, usize),
    Wrong(Refusal, usize),
}

// The colon after a name from `start` on, whose token ends at `to`, and the place of the value. The name is the last of those up to `end`.
fn colon(text: &[u8], start: usize, to: usize, end: usize) -> ItemStart
    requires { (0 < to) × (to ≤ length text.now) }
    ensures { Coloned text.now start to end result }
{
    let at = skip(text, to);
    if peek(text, at) != COLON {
        return ItemStart::Wrong(Refusal::Grammar(at), end);
    }
    let from = skip(text, at + 1);
    let ne = to - 1;
    ItemStart::At(start, ne, from, end)
}

// The place of a name, put behind those up to `end`, and where they end then. A store without words takes none: then names aren't compared.
fn put_name(names: &mut [u32], end: usize, at: usize) -> usize
    requires { Word at × RoomFor names.old end }
    ensures { Put names.old end at names.new result }
{
    if end < names.len() {
        names[end] = at as u32;
        return end + 1;
    }
    end
}

// The name at a place, put behind the names up to `end` once it is closed, whatever follows it.
pub(crate) fn read_key(text: &[u8], names: &mut [u32], end: usize, at: usize) -> ItemStart
    requires { NameAsks text.now names.old end at }
    ensures { ItemRead Object text.now end at names.old names.new result }
{
    if peek(text, at) != QUOTE {
        return ItemStart::Wrong(Refusal::Grammar(at), end);
    }
    match string_end(text, at + 1) {
        Err(fault) => ItemStart::Wrong(Refusal::from(fault), end),
        Ok(to) => {
            let last = put_name(names, end, at);
            colon(text, at + 1, to, last)
        }
    }
}
