// The case at hand, of which all tests are asked: a card that stands in a table, and the catalog that is lent to judge it.

// The catalog's words and numbers, and the card's text and rows.
#[derive(Clone, Copy)]
pub(crate) struct Case<'a> {
    pub words: &'a [u8],
    pub numbers: &'a [u32],
    pub text: &'a [u8],
    pub table: &'a [u32],
}
