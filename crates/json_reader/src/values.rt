// Values, and the arrays and objects that hold some (docs/RULES.md, 3.2), whose readers call each other. Each call has one container less
// to open, or stands further on in the text.
//
// Members are read without comparing their names. The places of the names that were closed stand in `names`, those of the object at hand
// from `top` on behind those of the objects around it, and are looked through once the object ends or a refusal ends it (crate
// `repeats`). If `names` has no words, none are put aside, and so none repeats another.
ghost use Rattle.std.specs.Prelude.{◌≡◌};
ghost use Rattle.text.specs.Limits.{base};
ghost use Rattle.text.specs.Text.{byte_at};
ghost use Rattle.text.specs.Tokens as tokens;
ghost use Rattle.text.specs.Reader.{scalar_at, value_at};
ghost use Rattle.json_reader.specs.Readers.{limits_in, ItemAsks, ValueAsks, ContainerAsks, ScalarAsks, Overfull, Took, TookIn};
ghost use Rattle.json_reader.specs.Readers.{CloseAsks, Closes, container_at, SettleAsks, Settles, ItemTook, ItemsTook};

use crate::bytes::{COMMA, peek};
use crate::containers::{Container, closing, container_of, item_at, kind_in};
use crate::limits::VALUES;
use crate::members::ItemStart;
use crate::repeated::first_repeat;
use crate::rows::{ARRAY, link, put_row};
use crate::tokens::{kind_of, skip, token_end};
use text::Refusal;

// What reading items gives, and where the names end that they and the items before them closed.
#[derive(Clone, Copy)]
pub struct Gathered {
    pub read: Result<(usize, usize), Refusal>,
    pub end: usize,
}

// The kind that the byte at a place begins, or 0.
fn kind_at(text: &[u8], at: usize) -> usize
    ensures { result ≡ tokens.kind_by (byte_at text.now at) }
{
    kind_of(peek(text, at))
}

// The refusal of what stands at a place, where there are as many values as there may be.
fn overfull(text: &[u8], depth: usize, at: usize) -> Refusal
    ensures { Overfull text.now depth at result }
{
    let kind = kind_at(text, at);
    if kind == 0 {
        return Refusal::Grammar(at);
    }
    if kind < ARRAY {
        return Refusal::Many(at);
    }
    if depth == 0 {
        return Refusal::Deep(at);
    }
    Refusal::Many(at)
}

// A value that holds no others, whose first byte is at a place.
fn read_scalar(
    text: &[u8],
    table: &mut [u32],
    kind: usize,
    ns: usize,
    ne: usize,
    at: usize,
    count: usize,
) -> Result<(usize, usize), Refusal>
    requires { ScalarAsks text.now kind ns ne at count }
    ensures { Took 0 (scalar_at base text.now kind ns ne at count) text.now at count table.old table.new result }
{
    let to = token_end(text, kind, at)?;
    put_row(table, count, kind, ns, ne, at, to, 0);
    let after = count + 1;
    Ok((to, after))
}

// Closes a container: its row, once what is inside is read.
fn close(
    table: &mut [u32],
    inside: Result<(usize, usize), Refusal>,
    kind: usize,
    ns: usize,
    ne: usize,
    at: usize,
    count: usize,
) -> Result<(usize, usize), Refusal>
    requires { CloseAsks kind ns ne at count inside }
    ensures { Closes kind ns ne at count inside table.old table.new result }
{
    let (to, after) = inside?;
    put_row(table, count, kind, ns, ne, at, to, after - count - 1);
    Ok((to, after))
}

// What reading a container's items gives once its names are looked through: a repeated one stands before whatever ended the reading.
fn settle(
    text: &[u8],
    names: &mut [u32],
    top: usize,
    items: Gathered,
) -> Result<(usize, usize), Refusal>
    requires { SettleAsks text.now names.old top items.end }
    ensures { Settles text.now top items names.old names.new result }
{
    let read = items.read;
    let end = items.end;
    if end - top < 2 {
        return read;
    }
    match first_repeat(text, &mut names[top..end]) {
        Some(place) => Err(Refusal::Repeated(place as usize)),
        None => read,
    }
}

// The value at a place, as row `count`, where at most `depth` containers may be opened. The limit is asked first and not between a
// value's first byte and its token: so what the first byte says is asked once.
#[cycle(read_container_read_item_read_items_read_value)]
pub(crate) fn read_value(
    text: &[u8],
    table: &mut [u32],
    names: &mut [u32],
    depth: usize,
    top: usize,
    ns: usize,
    ne: usize,
    at: usize,
    count: usize,
) -> Result<(usize, usize), Refusal>
    requires { ValueAsks text.now names.old top ns ne at count }
    ensures { TookIn (value_at (limits_in names.old) text.now depth ns ne at count) text.now at count table.old table.new top names.old
        names.new result }
{
    if VALUES <= count {
        return Err(overfull(text, depth, at));
    }
    let kind = kind_at(text, at);
    if kind == 0 {
        return Err(Refusal::Grammar(at));
    }
    if ARRAY <= kind {
        let of = container_of(kind);
        return read_container(text, table, names, depth, top, of, ns, ne, at, count);
    }
    read_scalar(text, table, kind, ns, ne, at, count)
}

// The array or object whose bracket is at a place. One function for both: with two, a deep text costs twice the time.
#[cycle(read_container_read_item_read_items_read_value)]
fn read_container(
    text: &[u8],
    table: &mut [u32],
    names: &mut [u32],
    depth: usize,
    top: usize,
    of: Container,
    ns: usize,
    ne: usize,
    at: usize,
    count: usize,
) -> Result<(usize, usize), Refusal>
    requires { ContainerAsks text.now names.old top ns ne at count }
    ensures { TookIn (container_at of (limits_in names.old) text.now depth ns ne at count) text.now at count table.old table.new top names.old
        names.new result }
{
    if depth == 0 {
        return Err(Refusal::Deep(at));
    }
    let items = read_items(text, table, names, depth - 1, top, of, at + 1, count + 1);
    let settled = settle(text, names, top, items);
    close(table, settled, kind_in(of), ns, ne, at, count)
}

// What stands in a container, from after its bracket to after its closing byte; its names are put aside from `top` on.
#[cycle(read_container_read_item_read_items_read_value)]
fn read_items(
    text: &[u8],
    table: &mut [u32],
    names: &mut [u32],
    depth: usize,
    top: usize,
    of: Container,
    from: usize,
    first: usize,
) -> Gathered
    requires { ItemAsks text.now names.old top from first }
    ensures { ItemsTook of text.now depth top from first table.old table.new names.old names.new result }
{
    let z = closing(of);
    let start = skip(text, from);
    let b = peek(text, start);
    if b == z {
        let next = start + 1;
        let read = Ok((next, first));
        return Gathered { read, end: top };
    }
    let parent = first - 1;
    let mut at = start;
    let mut count = first;
    let mut end = top;
    loop {
        let item = read_item(text, table, names, depth, of, end, at, count);
        end = item.end;
        let read = item.read;
        let Ok((to, after)) = read else {
            return Gathered { read, end };
        };
        let x = skip(text, to);
        let b = peek(text, x);
        if b == z {
            link(table, count, parent, 0);
            let next = x + 1;
            let read = Ok((next, after));
            return Gathered { read, end };
        }
        if b != COMMA {
            let read = Err(Refusal::Grammar(x));
            return Gathered { read, end };
        }
        link(table, count, parent, after);
        at = skip(text, x + 1);
        count = after;
    }
}

// One item of a container; its name goes behind the others, which end at `end`.
#[cycle(read_container_read_item_read_items_read_value)]
fn read_item(
    text: &[u8],
    table: &mut [u32],
    names: &mut [u32],
    depth: usize,
    of: Container,
    end: usize,
    at: usize,
    count: usize,
) -> Gathered
    requires { ItemAsks text.now names.old end at count }
    ensures { ItemTook of text.now depth end at count table.old table.new names.old names.new result }
{
    match item_at(text, names, of, end, at) {
        ItemStart::At(ns, ne, from, last) => {
            let read = read_value(text, table, names, depth, last, ns, ne, from, count);
            Gathered { read, end: last }
        }
        ItemStart::Wrong(r, last) => {
            let read = Err(r);
            Gathered { read, end: last }
        }
    }
}
