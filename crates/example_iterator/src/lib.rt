//! The Rust crate's example `iterator`: the values of a parser, one after another, in a loop.
#![tactic(auto)]

use std::alloc::Global;
use winnow_ascii::alphanumeric1;
use winnow_combinator::{separated_pair, terminated};
use winnow_error::EmptyError;
use winnow_iterator::iterator;
use winnow_parser::{Failure, ModalResult};

type Error = EmptyError;

/// Reads pairs of a name and a value, each ended by a comma, as `name:value,name:value,`, and
/// returns them with the remaining input. A pair that no comma ends remains.
pub fn read_pairs<'a>(
    alloc: Global,
    input: &'a str,
) -> ModalResult<(Vec<(&'a str, &'a str)>, &'a str), Error> {
    let pair = terminated(separated_pair(alphanumeric1(), ':', alphanumeric1()), ',');
    let mut pairs = iterator(alloc, input, pair);
    let mut found = Vec::new(alloc);
    while let Some(pair) = pairs.next() {
        if let Err(refused) = found.push(pair) {
            return Err(Failure::Refused(refused.into()));
        }
    }
    let (rest, ()) = pairs.finish()?;
    Ok((found, rest))
}
