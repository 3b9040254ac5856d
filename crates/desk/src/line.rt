// The line that the program prints for what it read: 0 and the row count, or a refusal's number and its second number (docs/REFUSALS.md).
ghost use Rattle.std.specs.Prelude.{◌≡◌, ltb, length};
ghost use Rattle.desk.specs.Line.{buffer, words_lent, of_input, Says, SaysFor};

use crate::limits::{BUFFER, ROWS};
use answers::sheet::OnPaper;
use card::judge::judge;
use json_reader::limits::ROW_WORDS;
use text::Paper;

// The words of the rows that are lent.
const WORDS: usize = ROWS * ROW_WORDS;

// The line for bytes that were read. Where there was more, it is 34, first of all: what fits is not judged.
pub fn line_of(text: &[u8], more: bool, table: &mut [u32]) -> Paper
    ensures { Says text.now more (length table.old) result table.new }
{
    if more {
        table.fill(0);
        return Paper {
            number: 34,
            second: 0,
            written: 0,
        };
    }
    judge(text, table).on_paper()
}

// Is an input over the buffer?
fn is_over(input: &[u8]) -> bool
    ensures { result ≡ ltb buffer (length input.now) }
{
    BUFFER < input.len()
}

// The line for an input. A byte over the buffer shows that there is more: of a longer input no more needs to be handed in (`read_enough`).
pub fn line_for(input: &[u8], table: &mut [u32]) -> Paper
    ensures { SaysFor input.now (length table.old) result table.new }
{
    if is_over(input) {
        return line_of(&input[..BUFFER], true, table);
    }
    line_of(input, false, table)
}

// The line that the program prints for its input, with a table of its own.
pub fn program_line(input: &[u8]) -> Paper
    ensures { result ≡ of_input input.now words_lent }
{
    let mut table = [0u32; WORDS];
    line_for(input, &mut table)
}
