// Judging a text as a card (docs/RULES.md, 5).
ghost use Rattle.std.specs.Prelude.{ℕ, List, ◌≡◌};
ghost use Rattle.text.specs.Limits.{Limits, base, loose};
ghost use Rattle.text.specs.Tree.{Forest};
ghost use Rattle.text.specs.Firsts.{Kinds};
ghost use Rattle.text.specs.Doc.{doc_of};
ghost use Rattle.contact.specs.Judge.{card_breach};
ghost use Rattle.contact.specs.Verdict.{fault_of};
ghost use Rattle.contact.specs.Judging.{Judges};
ghost use Rattle.card.specs.Rows.{ValueAt};
ghost use Rattle.card.specs.Walk.{sheet_number, found_of};
ghost use Rattle.card.specs.Judged.{ReadInto, WasRead, JudgedRows, JudgesRows, RowsFit};

use crate::case::Case;
use crate::catalog::{CARD, NUMBERS, WORDS};
use crate::schema::object_of;
use crate::walk::{Broken, breach_at};
use contact::{CardFault, CardRefusal};
use json_reader::limits::ROW_WORDS;
use json_reader::read::{read_loose, read_rows};
use json_reader::rows::{OBJECT, kind, value_start};
use text::Refusal;

// The line of the sheet that what is broken names, at a place.
fn fault_of(broken: Broken, place: usize) -> CardFault
    ensures { result ≡ fault_of (sheet_number broken) place }
{
    match broken {
        Broken::Kind => CardFault::Kind(place),
        Broken::Missing => CardFault::Missing(place),
        Broken::Value => CardFault::Value(place),
        Broken::Rule => CardFault::Rule(place),
    }
}

// The first breach of a card that stands in a table. The catalog is made here, once for a call, and not for what is no object.
fn card_breach(text: &[u8], table: &[u32]) -> Option<(usize, Broken)>
    requires { (f : Forest) × ValueAt table.now 0 f × Kinds f }
    ensures { (f : Forest) → ValueAt table.now 0 f → Kinds f → found_of result ≡ card_breach (doc_of text.now f) }
{
    if kind(table, 0) != OBJECT {
        return Some((0, Broken::Kind));
    }
    let words = WORDS;
    let numbers = NUMBERS;
    let card = object_of(CARD);
    let on = Case {
        words: &words,
        numbers: &numbers,
        text,
        table,
    };
    breach_at(&on, 0, card, true)
}

// The verdict on the n rows of a text that was read; where it fails, the table is cleared.
fn judge_rows(text: &[u8], table: &mut [u32], n: usize) -> Result<usize, CardRefusal>
    requires { (L : Limits) × (f : Forest) × ReadInto L text.now table.old n f }
    ensures { (L : Limits) (f : Forest) → ReadInto L text.now table.old n f → JudgedRows text.now table.old n f result table.new }
{
    match card_breach(text, table) {
        None => Ok(n),
        Some((row, broken)) => {
            let place = value_start(table, row);
            table.fill(0);
            Err(CardRefusal::from(fault_of(broken, place)))
        }
    }
}

// The verdict on a text that was read into a table with this answer.
fn judge_read(
    text: &[u8],
    table: &mut [u32],
    read: Result<usize, Refusal>,
) -> Result<usize, CardRefusal>
    requires { (L : Limits) × (lent : List ℕ) × WasRead L text.now lent read table.old }
    ensures { (L : Limits) (lent : List ℕ) → WasRead L text.now lent read table.old → JudgesRows L text.now lent result table.new }
{
    judge_rows(text, table, read?)
}

// Clears behind the rows of a card that passed: after a refusal nothing is left to clear.
fn clear_behind(table: &mut [u32], v: Result<usize, CardRefusal>)
    requires { RowsFit v table.old }
    ensures { (L : Limits) (t lent : List ℕ) → JudgesRows L t lent v table.old → Judges L t lent v table.new }
{
    if let Ok(n) = v {
        let used = n * ROW_WORDS;
        table[used..].fill(0);
    }
}

// Judges a text for a caller that clears later: its rows, and the words behind them as they were, or the first refusal and a table of zeros.
pub(crate) fn judge_kept(text: &[u8], table: &mut [u32]) -> Result<usize, CardRefusal>
    ensures { JudgesRows base text.now table.old result table.new }
{
    let read = read_rows(text, table);
    judge_read(text, table, read)
}

// Judges a text whose names are known to be distinct, so that they need not be compared.
pub(crate) fn judge_loose(text: &[u8], table: &mut [u32]) -> Result<usize, CardRefusal>
    ensures { Judges (loose base) text.now table.old result table.new }
{
    let read = read_loose(text, table);
    let v = judge_read(text, table, read);
    clear_behind(table, v);
    v
}

// Judges a text: the number of its rows, and these in the table, or the first refusal and a table of zeros.
pub fn judge(text: &[u8], table: &mut [u32]) -> Result<usize, CardRefusal>
    ensures { Judges base text.now table.old result table.new }
{
    let v = judge_kept(text, table);
    clear_behind(table, v);
    v
}
