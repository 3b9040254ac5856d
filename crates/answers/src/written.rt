// The answer of localizing, by the verdict on what was written (docs/RULES.md, 6.7), and what it says of the output.
ghost use Rattle.std.specs.Prelude.{◌≡◌};
ghost use Rattle.answers.specs.ByVerdict.{by_verdict, used_by};

use contact::{CardRefusal, LocalRefusal};

// 28, or the rows, where n bytes were written and judged as any text is.
pub fn by_verdict(v: Result<usize, CardRefusal>, n: usize) -> Result<(usize, usize), LocalRefusal>
    ensures { result ≡ by_verdict v n }
{
    let rows = v.map_err(LocalRefusal::Inner)?;
    Ok((rows, n))
}

// How many bytes of the output are used.
pub fn bytes_used(a: Result<(usize, usize), LocalRefusal>) -> usize
    ensures { result ≡ used_by a }
{
    a.map_or(0, |(_, n)| n)
}
