// Localizing (docs/RULES.md, 6): a card text and a language become the localized card and its rows, or a refusal.
ghost use Rattle.std.specs.Prelude.{ℕ, ◌≤◌, length, take};
ghost use Rattle.text.specs.Limits.{base};
ghost use Rattle.contact.specs.Localize.{localized_of};
ghost use Rattle.contact.specs.Contract.{Localizes};
ghost use Rattle.card.specs.Localizing.{judged_outcome, Yields, Answers};

use crate::judge::{judge_kept, judge_loose};
use answers::written::{by_verdict, bytes_used};
use contact::LocalRefusal;
use patch::compose::compose_for;

// 28, or the rows: the first n bytes of the output are judged. What was written has no name twice in an object, so its names aren't compared.
fn judge_written(out: &[u8], n: usize, table: &mut [u32]) -> Result<(usize, usize), LocalRefusal>
    requires { n ≤ length out.now }
    ensures { (room : ℕ) → Yields (length table.old) (judged_outcome (length table.old) room (take n out.now)) result table.new }
{
    by_verdict(judge_loose(&out[..n], table), n)
}

// All but clearing the output: conditions 1 to 14 on the card, 21 to 27 as it is written, and 28 on what is written.
fn localize_in(
    text: &[u8],
    language: &[u8],
    out: &mut [u8],
    table: &mut [u32],
) -> Result<(usize, usize), LocalRefusal>
    ensures { Answers (length table.old) (localized_of base (length table.old) (length out.old) text.now language.now) result table.new out.new }
{
    if let Err(r) = judge_kept(text, table) {
        return Err(LocalRefusal::Given(r));
    }
    match compose_for(text, table, language, out) {
        Err(r) => {
            table.fill(0);
            Err(r)
        }
        Ok(n) => judge_written(out, n, table),
    }
}

// Writes the localized card into the output and its rows into the table. What is unused of the two is zero, and after a refusal all of both.
pub fn localize(
    text: &[u8],
    language: &[u8],
    out: &mut [u8],
    table: &mut [u32],
) -> Result<(usize, usize), LocalRefusal>
    ensures { Localizes base (length table.old) (length out.old) text.now language.now result table.new out.new }
{
    let a = localize_in(text, language, out, table);
    let used = bytes_used(a);
    out[used..].fill(0);
    a
}
