// What the catalog says of an object's members (docs/RULES.md, 5.5): the type of each, and whether a mandatory one is missing.
ghost use Rattle.std.specs.Prelude.{◌≡◌, ◌<◌, get_or};
ghost use Rattle.laws.specs.Order.{same};
ghost use Rattle.text.specs.Strings.{name_of};
ghost use Rattle.text.specs.Tree.{Forest};
ghost use Rattle.text.specs.Doc.{members_of};
ghost use Rattle.contact.specs.Schema.{object_of, properties, type_in};
ghost use Rattle.contact.specs.Judge.{lacking};
ghost use Rattle.card.specs.Types.{simple_of, item_type, type_of, inner_type, bounded_at, item_at, type_at};
ghost use Rattle.card.specs.Catalog.{MembersAt, lines, no_line, is_missing, Lent, TriesLine, TriesName};

use crate::case::Case;
use crate::catalog::{
    ANY, ANY_OBJECT, ANY_STRING, BOUNDED, BY_TYPE, FLAG, LIST, LONG, MUST, NAME_OF, OBJECT_OF,
    TIME, VERSION, YES, lines_of, may_be, sized_word,
};
use crate::inside::has;
use crate::items::{Item, Keys, SimpleItem, Ty};
use json_reader::bytes::peek;
use json_reader::names::name_is;

// The pairs of bounds of unsigned integers, by their numbers.
fn bounded(i: u32) -> SimpleItem
    ensures { simple_of result ≡ bounded_at i }
{
    match i {
        0 => SimpleItem::Count(1, 100),
        _ => SimpleItem::Count(0, 0),
    }
}

// The item that the lowest part of a property's number stands for.
fn item_of(n: u32) -> Item
    ensures { item_type result ≡ item_at n }
{
    if BY_TYPE <= n {
        let pair = n - BY_TYPE;
        return Item::ByType(pair / 64, pair % 64);
    }
    if NAME_OF <= n {
        return Item::Simple(SimpleItem::TypeName(n - NAME_OF));
    }
    if OBJECT_OF <= n {
        return Item::ObjectOf(n - OBJECT_OF);
    }
    if BOUNDED <= n {
        return Item::Simple(bounded(n - BOUNDED));
    }
    match n {
        ANY_STRING => Item::Simple(SimpleItem::AnyString),
        VERSION => Item::Simple(SimpleItem::Version),
        FLAG => Item::Simple(SimpleItem::Flag),
        YES => Item::Simple(SimpleItem::Yes),
        TIME => Item::Simple(SimpleItem::Time),
        ANY_OBJECT => Item::AnyObject,
        _ => Item::Any,
    }
}

// The type that a code stands for.
pub(crate) fn type_of(code: u32) -> Ty
    ensures { type_of result ≡ type_at code }
{
    let item = item_of(code % LIST);
    match code / LIST % 4 {
        1 => Ty::ListOf(item),
        2 => Ty::MapOf(Keys::Free, item),
        3 => Ty::MapOf(Keys::Ids, item),
        _ => Ty::One(item),
    }
}

// The code of the values of a list or a map; below any other value nothing is judged.
pub(crate) fn inner(code: u32) -> u32
    ensures { type_at result ≡ inner_type (type_at code) }
{
    if code / LIST % 4 == 0 {
        return ANY;
    }
    code % LIST
}

// The code of an object of a type: there is room for 64 of them.
pub(crate) fn object_of(o: u32) -> u32
    requires { o < 64 }
    ensures { type_at result ≡ object_of o }
{
    OBJECT_OF + o
}

// An object: its type, and the rows from .. end of its members.
#[derive(Clone, Copy)]
pub(crate) struct Object {
    pub of: u32,
    pub from: usize,
    pub end: usize,
}

// Is property i a mandatory one, and not among the members?
fn is_missing(on: &Case, object: Object, i: usize) -> bool
    requires { TriesLine on.now.words.now on.now.numbers.now i }
    ensures { (f : Forest) → MembersAt on.now.table.now object f → result ≡ is_missing (members_of on.now.text.now f) (get_or lines i no_line) }
{
    let code = on.numbers[i];
    if code / MUST % 2 != 1 {
        return false;
    }
    let size = (code / LONG) as usize;
    !has(on, object.from, object.end, sized_word(on.words, i, size))
}

// Is a mandatory member missing?
pub(crate) fn is_lacking(on: &Case, object: Object) -> bool
    requires { Lent on.now.words.now on.now.numbers.now }
    ensures { (f : Forest) → MembersAt on.now.table.now object f → result ≡ lacking (properties object.of) (members_of on.now.text.now f) }
{
    let own = lines_of(on.numbers, object.of);
    for i in own.first..own.last {
        if is_missing(on, object, i) {
            return true;
        }
    }
    false
}

// Is a name that of property i? Its first written byte is handed in, since most names differ there.
fn is_property(on: &Case, first: u16, s: usize, e: usize, i: usize) -> bool
    requires { TriesName on.now.words.now on.now.numbers.now i on.now.text.now s first }
    ensures { result ≡ same (name_of on.now.text.now s e) (get_or lines i no_line).spelling }
{
    if !may_be(on.words, i, first) {
        return false;
    }
    let code = on.numbers[i];
    let size = (code / LONG) as usize;
    name_is(on.text, s, e, sized_word(on.words, i, size))
}

// The code of a member of that name in an object of that type.
pub(crate) fn type_in(on: &Case, o: u32, s: usize, e: usize) -> u32
    requires { Lent on.now.words.now on.now.numbers.now }
    ensures { type_at result ≡ type_in (properties o) (name_of on.now.text.now s e) }
{
    let first = peek(on.text, s);
    let own = lines_of(on.numbers, o);
    for i in own.first..own.last {
        if is_property(on, first, s, e, i) {
            return on.numbers[i];
        }
    }
    ANY
}
