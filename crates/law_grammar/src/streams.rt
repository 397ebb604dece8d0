//! One grammar over each kind of stream.

use std::alloc::Global;
use winnow_ascii::alpha1;
use winnow_combinator::{alt, separated};
use winnow_error::{EmptyError, ParserError};
use winnow_grammar::{Octets, Reads, Text, ask, part};
use winnow_kinds::BStr;
use winnow_parser::{ModalResult, Parser};
use winnow_stream_bytes::Bytes;
use winnow_token::{literal, one_of, take_while};
use winnow_wrap::{LocatingSlice, Partial, Stateful};

// Words, or a star.
#[derive(Clone, Copy, Drop)]
struct Words;

impl<I: Text, E: ParserError<I>> Reads<I, E> for Words {
    type Output = Vec<I::Piece>;

    fn read(&self, alloc: Global, input: &mut I) -> ModalResult<Self::Output, E> {
        let words = separated(1.., alt((alpha1(), literal("***"))), one_of(','));
        ask(alloc, input, &words)
    }
}

/// Reads words of a text.
pub fn read_words<'a>(alloc: Global, input: &mut &'a str) -> ModalResult<Vec<&'a str>, EmptyError> {
    part(Words).parse_next(alloc, input)
}

/// Reads words of a text that comes in pieces.
pub fn read_words_of_piece<'a>(
    alloc: Global,
    input: &mut Partial<&'a str>,
) -> ModalResult<Vec<&'a str>, EmptyError> {
    part(Words).parse_next(alloc, input)
}

/// Reads words of a text whose places are known.
pub fn read_words_with_places<'a>(
    alloc: Global,
    input: &mut LocatingSlice<&'a str>,
) -> ModalResult<Vec<&'a str>, EmptyError> {
    part(Words).parse_next(alloc, input)
}

/// Reads words of a text with a state.
pub fn read_words_with_state<'a>(
    alloc: Global,
    input: &mut Stateful<&'a str, u32>,
) -> ModalResult<Vec<&'a str>, EmptyError> {
    part(Words).parse_next(alloc, input)
}

// Letters, or a star.
#[derive(Clone, Copy, Drop)]
struct Letters;

impl<I: Octets, E: ParserError<I>> Reads<I, E> for Letters {
    type Output = I::Piece;

    fn read(&self, alloc: Global, input: &mut I) -> ModalResult<I::Piece, E> {
        let letters = alt((take_while(1.., b'a'..=b'z'), literal("***")));
        ask(alloc, input, &letters)
    }
}

/// Reads letters of bytes.
pub fn read_letters<'a>(alloc: Global, input: &mut &'a [u8]) -> ModalResult<&'a [u8], EmptyError> {
    part(Letters).parse_next(alloc, input)
}

/// Reads letters of bytes that come in pieces.
pub fn read_letters_of_piece<'a>(
    alloc: Global,
    input: &mut Partial<&'a [u8]>,
) -> ModalResult<&'a [u8], EmptyError> {
    part(Letters).parse_next(alloc, input)
}

/// Reads letters of bytes that print as text.
pub fn read_letters_of_text<'a>(
    alloc: Global,
    input: &mut BStr<'a>,
) -> ModalResult<&'a [u8], EmptyError> {
    part(Letters).parse_next(alloc, input)
}

/// Reads letters of bytes that print as numbers.
pub fn read_letters_of_bytes<'a>(
    alloc: Global,
    input: &mut Bytes<'a>,
) -> ModalResult<&'a [u8], EmptyError> {
    part(Letters).parse_next(alloc, input)
}
