// Rules between members (refusal 14; docs/RULES.md, 5.6), by the catalog's rules of a few shapes. A member of the wrong kind counts as
// absent.
ghost use Rattle.std.specs.Prelude.{◌≡◌, Bool, List, drop};
ghost use Rattle.text.specs.Tree.{Forest};
ghost use Rattle.text.specs.Standing.{StandsTo};
ghost use Rattle.text.specs.Doc.{doc_of, members_of};
ghost use Rattle.contact.specs.Rules.{present as presentOf, is_true, is_this_string, is_separator, marks_of, marks, badly_separated};
ghost use Rattle.contact.specs.Rules.{breaks_one, breaks as breaksOf};
ghost use Rattle.card.specs.Rows.{ValueAt, ValueOf};
ghost use Rattle.card.specs.Catalog.{MembersAt, rule_at, rule_words, Lent, OnObject, TriesRule};
ghost use Rattle.card.specs.Marks.{no_marks, mark_on, tally};
ghost use Rattle.card.specs.RuleTable.{is_counted, any_counted, then_broken, separators_broken, by_shape};

use crate::case::Case;
use crate::catalog::{
    EACH, NEEDS, NEEDS_STRING, NEEDS_TRUE, ONE_OF, RULE_WIDTH, RULES, SEPARATORS, rule_word,
    rules_of,
};
use crate::inside::{has_string, is_string_at};
use crate::items::kind_fits;
use crate::schema::{Object, type_in, type_of};
use json_reader::lookup::{find, next_row};
use json_reader::rows::{OBJECT, TRUE, kind, name_end, name_start};

// ---- members that count

// The row of the member of that name, if its kind is the one that the catalog asks.
fn present(on: &Case, object: Object, name: &[u8]) -> Option<usize>
    requires { Lent on.now.words.now on.now.numbers.now }
    ensures { (f : Forest) → MembersAt on.now.table.now object f
        → ValueOf on.now.text.now on.now.table.now result (presentOf object.of name.now (members_of on.now.text.now f)) }
{
    let Some(k) = find(on.text, on.table, object.from, object.end, name) else {
        return None;
    };
    let code = type_in(
        on,
        object.of,
        name_start(on.table, k),
        name_end(on.table, k),
    );
    if kind_fits(type_of(code), kind(on.table, k)) {
        return Some(k);
    }
    None
}

// Is it there? Nothing has the empty word for its name.
fn counts(on: &Case, object: Object, name: &[u8]) -> bool
    requires { Lent on.now.words.now on.now.numbers.now }
    ensures { (f : Forest) → MembersAt on.now.table.now object f → result ≡ is_counted object.of (members_of on.now.text.now f) name.now }
{
    !name.is_empty() && present(on, object, name).is_some()
}

// Is it there, and true?
fn is_true(on: &Case, object: Object, name: &[u8]) -> bool
    requires { Lent on.now.words.now on.now.numbers.now }
    ensures { (f : Forest) → MembersAt on.now.table.now object f
        → result ≡ is_true (presentOf object.of name.now (members_of on.now.text.now f)) }
{
    match present(on, object, name) {
        Some(k) => kind(on.table, k) == TRUE,
        None => false,
    }
}

// Is it there, and a String with that content?
fn is_this_string(on: &Case, object: Object, name: &[u8], content: &[u8]) -> bool
    requires { Lent on.now.words.now on.now.numbers.now }
    ensures { (f : Forest) → MembersAt on.now.table.now object f
        → result ≡ is_this_string content.now (presentOf object.of name.now (members_of on.now.text.now f)) }
{
    let found = present(on, object, name);
    is_string_at(on, found, content)
}

// Is one of the words of rule i there, from one of them on?
fn any_of(on: &Case, object: Object, i: usize, from: usize) -> bool
    requires { TriesRule on.now.words.now on.now.numbers.now on.now.table.now object i }
    ensures { (f : Forest) → MembersAt on.now.table.now object f
        → result ≡ any_counted object.of (members_of on.now.text.now f) (drop from (rule_words (rule_at i))) }
{
    for j in from..EACH {
        let word = rule_word(on.words, on.numbers, i, j);
        if counts(on, object, word) {
            return true;
        }
    }
    false
}

// ---- separators

// Is the entry at a row an object whose `kind` is the String "separator"?
fn is_separator(on: &Case, k: usize) -> bool
    ensures { (f : Forest) → ValueAt on.now.table.now k f → result ≡ is_separator (doc_of on.now.text.now f) }
{
    if kind(on.table, k) != OBJECT {
        return false;
    }
    let end = next_row(on.table, k);
    has_string(on, k + 1, end, b"kind", b"separator")
}

// What is told of the entries of a list so far: is any a separator, are all, are two in a row, and is the last one?
#[derive(Clone, Copy)]
pub(crate) struct Marks {
    pub any: bool,
    pub all: bool,
    pub twice: bool,
    pub last: bool,
}

// What is told of no entries.
fn no_marks() -> Marks
    ensures { result ≡ no_marks }
{
    Marks {
        any: false,
        all: true,
        twice: false,
        last: false,
    }
}

// What is told with one more entry, a separator or not.
fn marked(m: Marks, separator: bool) -> Marks
    ensures { result ≡ mark_on m separator }
{
    Marks {
        any: m.any || separator,
        all: m.all && separator,
        twice: m.twice || (m.last && separator),
        last: separator,
    }
}

// The entries of a list, of the rows from .. end.
fn tally_of(on: &Case, from: usize, end: usize) -> Marks
    ensures { (f : Forest) → StandsTo on.now.table.now from end f → result ≡ tally no_marks (marks_of (members_of on.now.text.now f)) }
{
    let mut m = no_marks();
    let mut at = from;
    while at < end {
        m = marked(m, is_separator(on, at));
        at = next_row(on.table, at);
    }
    m
}

// The entries of the list of that name; without it, those of no list.
fn tally_in(on: &Case, object: Object, name: &[u8]) -> Marks
    requires { OnObject on.now.words.now on.now.numbers.now on.now.table.now object }
    ensures { (f : Forest) → MembersAt on.now.table.now object f
        → result ≡ tally no_marks (marks (presentOf object.of name.now (members_of on.now.text.now f))) }
{
    let Some(k) = present(on, object, name) else {
        return no_marks();
    };
    let after = next_row(on.table, k);
    tally_of(on, k + 1, after)
}

// Do the marks of a list have two separators in a row, or one where the list isn't ordered?
fn badly_separated(m: Marks, ordered: bool) -> bool
    ensures { (ss : List Bool) → m ≡ tally no_marks ss → result ≡ badly_separated ss ordered }
{
    m.twice || (m.any && !ordered)
}

// ---- the shapes, of the words of rule i

// Where the first is there, does what the shape asks then fail?
fn breaks_then(on: &Case, object: Object, shape: u32, i: usize) -> bool
    requires { TriesRule on.now.words.now on.now.numbers.now on.now.table.now object i }
    ensures { (f : Forest) → MembersAt on.now.table.now object f
        → result ≡ then_broken object.of (members_of on.now.text.now f) shape (rule_words (rule_at i)) }
{
    match shape {
        NEEDS => !any_of(on, object, i, 1),
        NEEDS_STRING => {
            let second = rule_word(on.words, on.numbers, i, 1);
            let third = rule_word(on.words, on.numbers, i, 2);
            !is_this_string(on, object, second, third)
        }
        NEEDS_TRUE => {
            let second = rule_word(on.words, on.numbers, i, 1);
            !is_true(on, object, second)
        }
        _ => {
            let first = rule_word(on.words, on.numbers, i, 0);
            let m = tally_in(on, object, first);
            m.all
        }
    }
}

// The list of the first is badly separated, as the second is true or not. Without a separator nothing is asked of the second.
fn breaks_separators(on: &Case, object: Object, i: usize) -> bool
    requires { TriesRule on.now.words.now on.now.numbers.now on.now.table.now object i }
    ensures { (f : Forest) → MembersAt on.now.table.now object f
        → result ≡ separators_broken object.of (members_of on.now.text.now f) (rule_words (rule_at i)) }
{
    let first = rule_word(on.words, on.numbers, i, 0);
    let m = tally_in(on, object, first);
    if !m.any {
        return false;
    }
    let second = rule_word(on.words, on.numbers, i, 1);
    let ordered = is_true(on, object, second);
    badly_separated(m, ordered)
}

// ---- rules

// Do the members break rule i, whose shape is that?
fn breaks_shape(on: &Case, object: Object, shape: u32, i: usize) -> bool
    requires { TriesRule on.now.words.now on.now.numbers.now on.now.table.now object i }
    ensures { (f : Forest) → MembersAt on.now.table.now object f
        → result ≡ by_shape object.of (members_of on.now.text.now f) shape (rule_words (rule_at i)) }
{
    if shape == ONE_OF {
        return !any_of(on, object, i, 0);
    }
    if shape == SEPARATORS {
        return breaks_separators(on, object, i);
    }
    let first = rule_word(on.words, on.numbers, i, 0);
    if !counts(on, object, first) {
        return false;
    }
    breaks_then(on, object, shape, i)
}

// Is rule i broken by the members?
fn breaks_rule(on: &Case, object: Object, i: usize) -> bool
    requires { TriesRule on.now.words.now on.now.numbers.now on.now.table.now object i }
    ensures { (f : Forest) → MembersAt on.now.table.now object f → result ≡ breaks_one object.of (members_of on.now.text.now f) (rule_at i) }
{
    let at = RULES + i * RULE_WIDTH;
    let shape = on.numbers[at];
    breaks_shape(on, object, shape, i)
}

// Do the members of an object break a rule of its type?
pub(crate) fn breaks(on: &Case, object: Object) -> bool
    requires { OnObject on.now.words.now on.now.numbers.now on.now.table.now object }
    ensures { (f : Forest) → MembersAt on.now.table.now object f → result ≡ breaksOf object.of (members_of on.now.text.now f) }
{
    let own = rules_of(on.numbers, object.of);
    for i in own.first..own.last {
        if breaks_rule(on, object, i) {
            return true;
        }
    }
    false
}
