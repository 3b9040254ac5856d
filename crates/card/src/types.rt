// What a type asks (docs/RULES.md, 5.2 to 5.4): of a value by itself, of the key that it stands under, and of what stands below it.
ghost use Rattle.std.specs.Prelude.{◌≡◌};
ghost use Rattle.laws.specs.Lists.{part_of};
ghost use Rattle.text.specs.Strings.{name_of};
ghost use Rattle.text.specs.Tree.{Forest};
ghost use Rattle.text.specs.Standing.{StandsTo};
ghost use Rattle.text.specs.Doc.{doc_of};
ghost use Rattle.contact.specs.Judge.{is_of, chosen, type_below, member_type, key_fits, allowed_simple};
ghost use Rattle.json_reader.specs.Rows.{name_start_in, name_end_in};
ghost use Rattle.card.specs.Types.{simple_of, item_type, type_at, allowed_as};
ghost use Rattle.card.specs.Catalog.{table_words, Lent};
ghost use Rattle.card.specs.Rows.{ValueAt, row_key};

use crate::case::Case;
use crate::catalog::{ANY, type_name};
use crate::content::{content, is_content};
use crate::inside::has_string;
use crate::items::{Item, Keys, Role, SimpleItem, Ty, role_of};
use crate::schema::{inner, object_of, type_in, type_of};
use formats::counts::is_count;
use formats::dates::is_time;
use formats::ids::is_id;
use json_reader::lookup::next_row;
use json_reader::names::slice;
use json_reader::rows::{OBJECT, TRUE, kind, name_end, name_start};

// ---- what stands below

// The code that stands for a member of that name.
fn type_below(on: &Case, code: u32, s: usize, e: usize) -> u32
    requires { Lent on.now.words.now on.now.numbers.now }
    ensures { type_at result ≡ type_below (type_at code) (name_of on.now.text.now s e) }
{
    match role_of(type_of(code)) {
        Role::As(o) => type_in(on, o, s, e),
        Role::Between(_, _) => ANY,
        Role::Other => inner(code),
    }
}

// Is the value at a row an object whose `@type` is the name of the object type?
fn is_of(on: &Case, k: usize, o: u32) -> bool
    requires { on.now.words.now ≡ table_words }
    ensures { (f : Forest) → ValueAt on.now.table.now k f → result ≡ is_of o (doc_of on.now.text.now f) }
{
    if kind(on.table, k) != OBJECT {
        return false;
    }
    let end = next_row(on.table, k);
    has_string(on, k + 1, end, b"@type", type_name(on.words, o))
}

// The code that is asked of the value at a row, where one stands: its `@type` may choose it.
fn choose(on: &Case, k: usize, code: u32) -> u32
    requires { on.now.words.now ≡ table_words }
    ensures { (f : Forest) → ValueAt on.now.table.now k f → type_at result ≡ chosen (type_at code) (doc_of on.now.text.now f) }
{
    match role_of(type_of(code)) {
        Role::Between(usual, special) => {
            if is_of(on, k, special) {
                return object_of(special);
            }
            object_of(usual)
        }
        _ => code,
    }
}

// The code that is asked of the member at a row, by its name and its value.
pub(crate) fn member_type(on: &Case, k: usize, code: u32) -> u32
    requires { Lent on.now.words.now on.now.numbers.now }
    ensures { (f : Forest) → ValueAt on.now.table.now k f → type_at result ≡ member_type (type_at code) (name_of on.now.text.now (name_start_in on.now.table.now k) (name_end_in on.now.table.now k)) (doc_of on.now.text.now f) }
{
    let stands = type_below(on, code, name_start(on.table, k), name_end(on.table, k));
    choose(on, k, stands)
}

// Is the key of the entry at a row allowed? The entries of its map stand from the first row on, so that a test may look at the keys before it too.
pub(crate) fn key_fits(on: &Case, code: u32, first: usize, at: usize) -> bool
    ensures { (f : Forest) → StandsTo on.now.table.now first at f → result ≡ key_fits (type_at code) (row_key on.now.text.now on.now.table.now f at) }
{
    match type_of(code) {
        Ty::MapOf(Keys::Ids, _) => is_id(slice(
            on.text,
            name_start(on.table, at),
            name_end(on.table, at),
        )),
        _ => true,
    }
}

// ---- values

// Is a value of that kind, which may be such a simple one, allowed as one?
fn simple_allows(on: &Case, item: SimpleItem, kind: usize, from: usize, to: usize) -> bool
    requires { on.now.words.now ≡ table_words }
    ensures { result ≡ allowed_simple (simple_of item) kind (part_of on.now.text.now from to) }
{
    match item {
        SimpleItem::AnyString | SimpleItem::Flag => true,
        SimpleItem::TypeName(o) => is_content(on.text, from, to, type_name(on.words, o)),
        SimpleItem::Version => is_content(on.text, from, to, b"1.0"),
        SimpleItem::Yes => kind == TRUE,
        SimpleItem::Count(low, high) => is_count(slice(on.text, from, to), low, high),
        SimpleItem::Time => is_time(content(on.text, from, to)),
    }
}

// Is a value of that kind, which may be such an item, allowed as one? Only simple ones are asked.
fn item_allows(on: &Case, item: Item, kind: usize, from: usize, to: usize) -> bool
    requires { on.now.words.now ≡ table_words }
    ensures { result ≡ allowed_as (item_type item) kind (part_of on.now.text.now from to) }
{
    match item {
        Item::Simple(simple) => simple_allows(on, simple, kind, from, to),
        _ => true,
    }
}

// Is a value of that kind, whose token stands from a place up to another, allowed?
pub(crate) fn allows(on: &Case, code: u32, kind: usize, from: usize, to: usize) -> bool
    requires { on.now.words.now ≡ table_words }
    ensures { result ≡ allowed_as (type_at code) kind (part_of on.now.text.now from to) }
{
    match type_of(code) {
        Ty::One(item) => item_allows(on, item, kind, from, to),
        _ => true,
    }
}
