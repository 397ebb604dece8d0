//! The Rust crate's example `ini`: categories of keys with values, over text and over bytes.
#![tactic(auto)]

use std::alloc::Global;
use std::collections::HashMap;
use winnow_ascii::{alphanumeric1, multispace0, multispace1, space0};
use winnow_combinator::{delimited, opt, repeat, separated_pair, terminated};
use winnow_error_context::ContextError;
use winnow_grammar::{Chars, Reads, ask, part};
use winnow_parser::{ModalResult, Parser};
use winnow_token::{one_of, take_till};

/// What was being read where a text is no ini.
#[derive(Clone, Copy, Debug, PartialEq, Eq)]
pub enum Wanted {
    /// The name of a category in brackets
    Category,
    /// A key with its value
    Value,
}

type Error = ContextError<Wanted>;

type Values<S> = HashMap<S, S>;

#[derive(Clone, Copy, Drop)]
struct Category;

impl<I: Chars> Reads<I, Error> for Category {
    type Output = I::Piece;

    fn read(&self, alloc: Global, input: &mut I) -> ModalResult<I::Piece, Error> {
        let name = delimited(one_of('['), take_till(0.., ']'), one_of(']'));
        let category = terminated(name, multispace0()).context(Wanted::Category);
        ask(alloc, input, &category)
    }
}

#[derive(Clone, Copy, Drop)]
struct KeyValue;

impl<I: Chars> Reads<I, Error> for KeyValue {
    type Output = (I::Piece, I::Piece);

    fn read(&self, alloc: Global, input: &mut I) -> ModalResult<(I::Piece, I::Piece), Error> {
        let sign = (space0(), one_of('='), space0());
        let comment = opt((one_of(';'), take_till(0.., '\n')));
        let pair = separated_pair(alphanumeric1(), sign, take_till(0.., ('\n', ';')));
        let pair = terminated(pair, (comment, opt(multispace1()))).context(Wanted::Value);
        ask(alloc, input, &pair)
    }
}

#[derive(Clone, Copy, Drop)]
struct Ini;

impl<I: Chars> Reads<I, Error> for Ini {
    type Output = HashMap<I::Piece, Values<I::Piece>>;

    fn read(&self, alloc: Global, input: &mut I) -> ModalResult<Self::Output, Error> {
        let values = repeat::<_, Values<I::Piece>, _>(0.., part(KeyValue));
        ask(alloc, input, &repeat(0.., (part(Category), values)))
    }
}

/// Reads the categories of a text.
pub fn categories<'a>(
    alloc: Global,
    input: &mut &'a str,
) -> ModalResult<HashMap<&'a str, Values<&'a str>>, Error> {
    part(Ini).parse_next(alloc, input)
}

/// Reads the categories of bytes.
pub fn categories_of_bytes<'a>(
    alloc: Global,
    input: &mut &'a [u8],
) -> ModalResult<HashMap<&'a [u8], Values<&'a [u8]>>, Error> {
    part(Ini).parse_next(alloc, input)
}
