//! A choice by a token that was read, as `dispatch` of the Rust crate makes it.

use std::alloc::Global;
use winnow_ascii::{alpha1, digit1};
use winnow_combinator::{cut_err, fail};
use winnow_error::{EmptyError, ParserError};
use winnow_grammar::{Reads, Text, ask, part};
use winnow_parser::{ModalResult, Parser};
use winnow_token::any;

/// What stands after a mark.
#[derive(Clone, Copy, Debug, Drop, PartialEq, Eq)]
pub enum Marked<S> {
    /// Digits after `#`
    Number(S),
    /// Letters after `@`
    Name(S),
}

// What stands after this mark. An unknown one is a backtrack; after a known one nothing else is
// tried.
#[derive(Clone, Copy, Drop)]
struct AfterMark {
    mark: char,
}

impl<I: Text, E: ParserError<I>> Reads<I, E> for AfterMark {
    type Output = Marked<I::Piece>;

    fn read(&self, alloc: Global, input: &mut I) -> ModalResult<Marked<I::Piece>, E> {
        match self.mark {
            '#' => {
                let number = digit1().map(|digits: I::Piece| Marked::Number(digits));
                ask(alloc, input, &cut_err(number))
            }
            '@' => {
                let name = alpha1().map(|letters: I::Piece| Marked::Name(letters));
                ask(alloc, input, &cut_err(name))
            }
            _ => ask(alloc, input, &fail()),
        }
    }
}

// A mark, and what stands after it.
#[derive(Clone, Copy, Drop)]
struct Mark;

impl<I: Text, E: ParserError<I>> Reads<I, E> for Mark {
    type Output = Marked<I::Piece>;

    fn read(&self, alloc: Global, input: &mut I) -> ModalResult<Marked<I::Piece>, E> {
        let marked = any().flat_map(|mark: char| part(AfterMark { mark }));
        ask(alloc, input, &marked)
    }
}

/// Reads a mark of a text.
pub fn read_marked<'a>(
    alloc: Global,
    input: &mut &'a str,
) -> ModalResult<Marked<&'a str>, EmptyError> {
    part(Mark).parse_next(alloc, input)
}
