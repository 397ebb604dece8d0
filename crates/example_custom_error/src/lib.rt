//! An error of one's own, as the Rust crate's example `custom_error` has one: it implements one
//! call for parsers that fail, and one for functions that do.
#![tactic(auto)]

use std::alloc::Global;
use std::num::ParseIntError;
use winnow_ascii::digit1;
use winnow_combinator::alt;
use winnow_error::{Plain, PlainError, PlainFromExternal};
use winnow_parser::{ModalResult, Parser};
use winnow_token::one_of;

/// An error of a program's own.
#[derive(Clone, Copy, Debug, PartialEq, Eq)]
pub enum NumberError {
    /// There is no number
    Missing,
    /// The number is past 255
    TooLarge,
}

impl<I> PlainError<I> for NumberError {
    fn from_input(_alloc: Global, _input: &I) -> Self {
        NumberError::Missing
    }
}

impl<I> PlainFromExternal<I, ParseIntError> for NumberError {
    fn from_external(_alloc: Global, _input: &I, _error: ParseIntError) -> Self {
        NumberError::TooLarge
    }
}

/// Reads a number up to 255, or says what is wrong with it.
pub fn read_number(alloc: Global, input: &mut &str) -> ModalResult<u8, Plain<NumberError>> {
    digit1()
        .try_map(|digits: &str| digits.parse::<u8>())
        .parse_next(alloc, input)
}

/// Reads a number or a star, which stands for 255.
pub fn read_bound(alloc: Global, input: &mut &str) -> ModalResult<u8, Plain<NumberError>> {
    let number = digit1().try_map(|digits: &str| digits.parse::<u8>());
    alt((one_of('*').value(255), number)).parse_next(alloc, input)
}
