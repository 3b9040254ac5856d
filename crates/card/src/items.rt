// The types of a card's values (docs/RULES.md, 5.3 and 5.4): what a value has to be, and of which kind it may then be.
ghost use Rattle.std.specs.Prelude.{◌≡◌, true, cond, eqb};
ghost use Rattle.contact.specs.Schema.{fits_simple, fits};
ghost use Rattle.card.specs.Types.{simple_of, item_type, type_of, is_any, AsObject};

use json_reader::rows::{ARRAY, FALSE, NUMBER, OBJECT, STRING, TRUE};

// The keys of a map: any, or Ids.
#[derive(Clone, Copy)]
pub(crate) enum Keys {
    Free,
    Ids,
}

// What a value that holds no others may have to be.
#[derive(Clone, Copy)]
pub(crate) enum SimpleItem {
    AnyString,
    // the name of that object type
    TypeName(u32),
    // "1.0"
    Version,
    Flag,
    // a value of a set: true
    Yes,
    // an unsigned integer from the one to the other
    Count(u64, u64),
    Time,
}

// What a value may have to be, or each value of a list or a map. An object type is its number in the catalog.
#[derive(Clone, Copy)]
pub(crate) enum Item {
    // of an unknown property: nothing is judged
    Any,
    Simple(SimpleItem),
    ObjectOf(u32),
    // an object whose members aren't judged
    AnyObject,
    // an object of the second type, if its `@type` says so, else of the first
    ByType(u32, u32),
}

// What a value has to be: one item, a list of such items, or a map of them.
#[derive(Clone, Copy)]
pub(crate) enum Ty {
    One(Item),
    ListOf(Item),
    MapOf(Keys, Item),
}

// Is it the kind of a Boolean, false or true?
fn is_flag(kind: usize) -> bool
    ensures { result ≡ cond (eqb kind 2) true (eqb kind 3) }
{
    matches!(kind, FALSE | TRUE)
}

// May a value of that kind be such a simple one?
fn simple_fits(item: SimpleItem, kind: usize) -> bool
    ensures { result ≡ fits_simple (simple_of item) kind }
{
    match item {
        SimpleItem::Flag | SimpleItem::Yes => is_flag(kind),
        SimpleItem::Count(_, _) => kind == NUMBER,
        _ => kind == STRING,
    }
}

// May a value of that kind be such an item?
fn item_fits(item: Item, kind: usize) -> bool
    ensures { result ≡ fits (item_type item) kind }
{
    match item {
        Item::Any => true,
        Item::Simple(simple) => simple_fits(simple, kind),
        _ => kind == OBJECT,
    }
}

// May a value of that kind have the type?
pub(crate) fn kind_fits(ty: Ty, kind: usize) -> bool
    ensures { result ≡ fits (type_of ty) kind }
{
    match ty {
        Ty::One(item) => item_fits(item, kind),
        Ty::ListOf(_) => kind == ARRAY,
        Ty::MapOf(_, _) => kind == OBJECT,
    }
}

// Is nothing asked of a value of the type?
pub(crate) fn is_any(ty: Ty) -> bool
    ensures { result ≡ is_any (type_of ty) }
{
    matches!(ty, Ty::One(Item::Any))
}

// What a type is for the rules on objects.
#[derive(Clone, Copy)]
pub(crate) enum Role {
    As(u32),
    Between(u32, u32),
    Other,
}

// The object type of an item that is one.
fn item_role(item: Item) -> Role
    ensures { AsObject result (item_type item) }
{
    match item {
        Item::ObjectOf(o) => Role::As(o),
        Item::ByType(usual, special) => Role::Between(usual, special),
        _ => Role::Other,
    }
}

// The object type of a type that is one.
pub(crate) fn role_of(ty: Ty) -> Role
    ensures { AsObject result (type_of ty) }
{
    match ty {
        Ty::One(item) => item_role(item),
        _ => Role::Other,
    }
}
