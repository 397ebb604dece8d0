//! A state that parsers change: a cell that a part holds.

use std::alloc::Global;
use std::cell::Cell;
use winnow_ascii::{alpha1, digit1};
use winnow_combinator::{alt, separated};
use winnow_error::{EmptyError, ParserError};
use winnow_grammar::{Reads, Text, ask, part};
use winnow_parser::{ModalResult, Parser};
use winnow_token::one_of;

// A word, which is counted in a cell.
#[derive(Clone, Copy, Drop)]
struct CountedWord<'c> {
    seen: &'c Cell<u32>,
}

impl<'c, I: Text, E: ParserError<I>> Reads<I, E> for CountedWord<'c> {
    type Output = I::Piece;

    fn read(&self, alloc: Global, input: &mut I) -> ModalResult<I::Piece, E> {
        let word = ask(alloc, input, &alpha1())?;
        self.seen.set(self.seen.get().saturating_add(1));
        Ok(word)
    }
}

/// Reads words between commas, and counts in a cell how many were read, also those of an
/// alternative that was given up.
pub fn read_counted<'a>(
    alloc: Global,
    seen: &Cell<u32>,
    input: &mut &'a str,
) -> ModalResult<Vec<&'a str>, EmptyError> {
    let word = part(CountedWord { seen });
    separated(1.., alt((word, digit1())), one_of(',')).parse_next(alloc, input)
}
