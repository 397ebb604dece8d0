//! Parsers of tokens, over text and over bytes.

use rows::{Fault, Words};
use rows_fronts::{Fronts, Row, ask, counts, set};
use std::alloc::Global;
use std::fmt::Debug;
use winnow_combinator::{empty, eof, fail};
use winnow_match::Compare;
use winnow_sets::{AsChar, CharSet};
use winnow_token::{
    any, hits_stay_law, literal, none_of, one_of, rest, rest_len, take, take_till, take_until,
    take_while,
};
use winnow_wrap::Partial;

/// Answers calls of the parsers of a token, of a number of tokens, and of a set.
pub fn tokens<I: Fronts>(alloc: Global, call: &Words, row: &Row<I::Whole>) -> Result<String, Fault>
where
    I::Token: AsChar + Copy + Debug + Drop,
    I::Slice: Debug + Drop,
{
    match call.plain(0)? {
        "any" => ask::<I, _>(alloc, &any(), row),
        "one_of" => ask::<I, _>(alloc, &one_of(CharSet::new(&set(call, 1).0)), row),
        "none_of" => ask::<I, _>(alloc, &none_of(CharSet::new(&set(call, 1).0)), row),
        "take" => ask::<I, _>(alloc, &take(call.number(1)?), row),
        "take_while" => {
            let ranges = set(call, 2).0;
            ask::<I, _>(
                alloc,
                &take_while(counts(call, 1)?, CharSet::new(&ranges)),
                row,
            )
        }
        "take_till" => {
            let ranges = set(call, 2).0;
            ask::<I, _>(
                alloc,
                &take_till(counts(call, 1)?, CharSet::new(&ranges)),
                row,
            )
        }
        "rest" => ask::<I, _>(alloc, &rest(), row),
        "rest_len" => ask::<I, _>(alloc, &rest_len(), row),
        "eof" => ask::<I, _>(alloc, &eof(), row),
        "empty" => ask::<I, _>(alloc, &empty(), row),
        "fail" => ask::<I, _>(alloc, &fail::<()>(), row),
        _ => Err(Fault::NoSuchCall),
    }
}

/// Answers `literal` of a text.
pub fn literals<'w, I: Fronts + Compare<&'w str>>(
    alloc: Global,
    text: &'w str,
    row: &Row<I::Whole>,
) -> Result<String, Fault>
where
    I::Slice: Debug + Drop,
{
    ask::<I, _>(alloc, &literal(text), row)
}

/// Answers `take_until` of a text, over text.
pub fn until(alloc: Global, call: &Words, row: &Row<&str>) -> Result<String, Fault> {
    hits_stay_law();
    let parser = take_until(counts(call, 1)?, call.text(2)?);
    ask::<Partial<&str>, _>(alloc, &parser, row)
}
