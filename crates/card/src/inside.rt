// What stands inside a value, by its rows (docs/RULES.md, 4): the member of a name, and a String that it may be.
ghost use Rattle.std.specs.Prelude.{◌≡◌};
ghost use Rattle.std.proofs.Math.Option.{Option};
ghost use Rattle.text.specs.Tree.{Forest};
ghost use Rattle.text.specs.Standing.{StandsTo};
ghost use Rattle.text.specs.Doc.{Doc, doc_of, members_of, seek, is_there};
ghost use Rattle.contact.specs.Rules.{is_string, is_this_string, has_kind};
ghost use Rattle.card.specs.Rows.{ValueAt, ValueOf};

use crate::case::Case;
use crate::content::is_content;
use json_reader::lookup::find;
use json_reader::rows::{STRING, kind, value_end, value_start};

// Is there a member of that name?
pub(crate) fn has(on: &Case, from: usize, end: usize, name: &[u8]) -> bool
    ensures { (f : Forest) → StandsTo on.now.table.now from end f → result ≡ is_there (seek name.now (members_of on.now.text.now f)) }
{
    find(on.text, on.table, from, end, name).is_some()
}

// Is the value at a row a string with that content?
fn is_string(on: &Case, k: usize, content: &[u8]) -> bool
    ensures { (f : Forest) → ValueAt on.now.table.now k f → result ≡ is_string content.now (doc_of on.now.text.now f) }
{
    if kind(on.table, k) != STRING {
        return false;
    }
    is_content(
        on.text,
        value_start(on.table, k),
        value_end(on.table, k),
        content,
    )
}

// Is what a search has found a string with that content?
pub(crate) fn is_string_at(on: &Case, found: Option<usize>, content: &[u8]) -> bool
    ensures { (o : Option Doc) → ValueOf on.now.text.now on.now.table.now found o → result ≡ is_this_string content.now o }
{
    match found {
        Some(k) => is_string(on, k, content),
        None => false,
    }
}

// Is there a member of that name that is a string with that content?
pub(crate) fn has_string(on: &Case, from: usize, end: usize, name: &[u8], content: &[u8]) -> bool
    ensures { (f : Forest) → StandsTo on.now.table.now from end f → result ≡ has_kind content.now (seek name.now (members_of on.now.text.now f)) }
{
    let found = find(on.text, on.table, from, end, name);
    is_string_at(on, found, content)
}
