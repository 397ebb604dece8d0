//! Characters, bytes and texts as parsers, and closures with a `requires`.

ghost use Rattle.std.specs.Prelude.{◌≤◌};

use std::alloc::Global;
use winnow_ascii::digit1;
use winnow_combinator::{alt, delimited, preceded, separated};
use winnow_error::EmptyError;
use winnow_grammar::{AsText, Reads, Text, ask, part};
use winnow_parser::{ModalResult, Parser};
use winnow_token::{one_of, take_while};

/// Reads a sign, which is a character, and a number after a word, which is a text.
pub fn read_setting<'a>(
    alloc: Global,
    input: &mut &'a str,
) -> ModalResult<(char, &'a str), EmptyError> {
    preceded("set ", (alt(('+', '-')), digit1())).parse_next(alloc, input)
}

/// Reads bytes as parsers.
pub fn read_version(alloc: Global, input: &mut &[u8]) -> ModalResult<u8, EmptyError> {
    let digits = take_while(1..=2, b'0'..=b'9').verify_map(|it: &[u8]| it.first().copied());
    preceded(b"v".as_slice(), delimited(b'(', digits, b')')).parse_next(alloc, input)
}

/// Reads a digit and its value: the function is called on digits alone.
pub fn read_digit(alloc: Global, input: &mut &[u8]) -> ModalResult<u8, EmptyError> {
    one_of(b'0'..=b'9')
        .map(
            |digit: u8| -> u8
                requires { 48 ≤ digit }
            { digit - b'0' },
        )
        .parse_next(alloc, input)
}

/// A number in hexadecimal digits.
#[derive(Drop)]
pub struct Hexadecimal;

impl<I: Text> Reads<I, EmptyError> for Hexadecimal {
    type Output = u8;

    fn read(&self, alloc: Global, input: &mut I) -> ModalResult<u8, EmptyError> {
        let digits = take_while(2, ('0'..='9', 'a'..='f'));
        ask(
            alloc,
            input,
            &digits.verify_map(|it: I::Piece| u8::from_str_radix(it.as_text(), 16).ok()),
        )
    }
}

/// Reads.
pub fn read_hex(alloc: Global, input: &mut &str) -> ModalResult<u8, EmptyError> {
    take_while(2, ('0'..='9', 'a'..='f'))
        .verify_map(|it| u8::from_str_radix(it, 16).ok())
        .parse_next(alloc, input)
}

/// Reads.
pub fn read_word<'a>(alloc: Global, input: &mut &'a str) -> ModalResult<Word<'a>, EmptyError> {
    take_while(2, ('0'..='9', 'a'..='f'))
        .map(|text| Word { text })
        .parse_next(alloc, input)
}

/// A word.
#[derive(Clone, Copy, Debug, Drop)]
pub struct Word<'a> {
    /// its text
    pub text: &'a str,
}

/// Reads numbers between brackets.
pub fn read_numbers(alloc: Global, input: &mut &str) -> ModalResult<Vec<u8>, EmptyError> {
    delimited('[', separated(0.., part(Hexadecimal), ", "), ']').parse_next(alloc, input)
}
