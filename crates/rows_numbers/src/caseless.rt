//! The parser of a literal that is compared without regard to the case of ASCII letters.

use rows::{Fault, Word, Words};
use rows_fronts::{Fronts, Row, ask};
use std::alloc::Global;
use std::fmt::Debug;
use winnow_match::{Caseless, Compare};
use winnow_token::literal;

/// Answers `literal(Caseless(..))` of a text or of a character.
pub fn texts<'c, I: Fronts + Compare<Caseless<&'c str>> + Compare<Caseless<char>>>(
    alloc: Global,
    call: &'c Words,
    row: &Row<I::Whole>,
) -> Result<String, Fault>
where
    I::Slice: Debug + Drop,
{
    match call.word(2)? {
        Word::Text(text) => ask::<I, _>(alloc, &literal(Caseless(text.as_str())), row),
        Word::Char(sign) => ask::<I, _>(alloc, &literal(Caseless(*sign)), row),
        _ => Err(Fault::NoSuchCall),
    }
}

/// Answers `literal(Caseless(..))` of bytes.
pub fn bytes<'c, I: Fronts + Compare<Caseless<&'c [u8]>>>(
    alloc: Global,
    literal_bytes: &'c [u8],
    row: &Row<I::Whole>,
) -> Result<String, Fault>
where
    I::Slice: Debug + Drop,
{
    ask::<I, _>(alloc, &literal(Caseless(literal_bytes)), row)
}
