// The verdict on a card's rows (docs/RULES.md, 5.2): the first breach in the order of the rows, and on one row the smallest number.
ghost use Rattle.std.specs.Prelude.{◌≡◌, false, cond};
ghost use Rattle.text.specs.Tree.{Forest};
ghost use Rattle.text.specs.Firsts.{Kinds};
ghost use Rattle.text.specs.Doc.{doc_of, members_of};
ghost use Rattle.contact.specs.Judge.{row_number, breach_of};
ghost use Rattle.card.specs.Types.{type_at, is_any};
ghost use Rattle.card.specs.Catalog.{MembersAt, table_words, OnObject, OnValue, OnWhole};
ghost use Rattle.card.specs.Rows.{ValueAt};
ghost use Rattle.card.specs.Walk.{object_number, value_number, number_of, found_of};

use crate::case::Case;
use crate::items::{Role, is_any, kind_fits, role_of};
use crate::rules::breaks;
use crate::schema::{Object, is_lacking, type_of};
use crate::types::{allows, key_fits, member_type};
use json_reader::lookup::next_row;
use json_reader::rows::{kind, value_end, value_start};

// What a value breaks by itself: its kind isn't the type's (11), it lacks a mandatory member (12), it or its key isn't allowed (13), or a
// rule between its members fails (14).
#[derive(Clone, Copy)]
pub(crate) enum Broken {
    Kind,
    Missing,
    Value,
    Rule,
}

// 12 to 14 on an object.
fn object_broken(on: &Case, object: Object, key: bool) -> Option<Broken>
    requires { OnObject on.now.words.now on.now.numbers.now on.now.table.now object }
    ensures { (f : Forest) → MembersAt on.now.table.now object f
        → number_of result ≡ object_number object.of key (members_of on.now.text.now f) }
{
    if is_lacking(on, object) {
        return Some(Broken::Missing);
    }
    if !key {
        return Some(Broken::Value);
    }
    if breaks(on, object) {
        return Some(Broken::Rule);
    }
    None
}

// 13 on a value of a type that is no object type.
fn value_broken(on: &Case, row: usize, code: u32, key: bool) -> Option<Broken>
    requires { on.now.words.now ≡ table_words }
    ensures { (f : Forest) → ValueAt on.now.table.now row f → Kinds f
        → number_of result ≡ value_number (type_at code) key on.now.text.now f }
{
    if !key {
        return Some(Broken::Value);
    }
    let from = value_start(on.table, row);
    let to = value_end(on.table, row);
    if allows(on, code, kind(on.table, row), from, to) {
        return None;
    }
    Some(Broken::Value)
}

// What the value at a row breaks by itself, of the smallest number.
fn row_broken(on: &Case, row: usize, code: u32, key: bool) -> Option<Broken>
    requires { OnValue on.now.words.now on.now.numbers.now on.now.table.now row }
    ensures { (f : Forest) → ValueAt on.now.table.now row f → Kinds f
        → number_of result ≡ row_number (type_at code) key (doc_of on.now.text.now f) }
{
    let ty = type_of(code);
    if !kind_fits(ty, kind(on.table, row)) {
        return Some(Broken::Kind);
    }
    match role_of(ty) {
        Role::As(o) => {
            let end = next_row(on.table, row);
            let from = row + 1;
            let object = Object { of: o, from, end };
            object_broken(on, object, key)
        }
        _ => value_broken(on, row, code, key),
    }
}

// Is nothing judged of a value of the type, under a key that is allowed or not, and of what is below it?
fn is_free(code: u32, key: bool) -> bool
    ensures { result ≡ cond key (is_any (type_at code)) false }
{
    key && is_any(type_of(code))
}

// The first breach of the value at a row, of a type, under a key that is allowed or not, and of what is below it.
pub(crate) fn breach_at(on: &Case, row: usize, code: u32, key: bool) -> Option<(usize, Broken)>
    requires { OnWhole on.now.words.now on.now.numbers.now on.now.table.now row }
    ensures { (f : Forest) → ValueAt on.now.table.now row f → Kinds f
        → found_of result ≡ breach_of (type_at code) key row (doc_of on.now.text.now f) }
{
    if is_free(code, key) {
        return None;
    }
    if let Some(broken) = row_broken(on, row, code, key) {
        return Some((row, broken));
    }
    let end = next_row(on.table, row);
    let first = row + 1;
    let mut at = first;
    while at < end {
        let below = member_type(on, at, code);
        let allowed = key_fits(on, code, first, at);
        let b = breach_at(on, at, below, allowed);
        if b.is_some() {
            return b;
        }
        at = next_row(on.table, at);
    }
    None
}
