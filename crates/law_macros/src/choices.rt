//! `dispatch!` in parts of a grammar: over characters, with a guard and a binding, and around the
//! parser of the inner layers.

use std::alloc::Global;
use winnow_ascii::{alpha1, digit1};
use winnow_combinator::{delimited, empty, fail, peek, preceded};
use winnow_error::{EmptyError, ParserError};
use winnow_grammar::{Layer, Reads, Text, ask, nested, part};
use winnow_macros::dispatch;
use winnow_parser::{ModalResult, Parser};
use winnow_token::{any, one_of};
use winnow_wrap::Partial;

// A character that is written after a backslash.
#[derive(Clone, Copy, Drop)]
struct Escaped;

impl<I: Text, E: ParserError<I>> Reads<I, E> for Escaped {
    type Output = char;

    fn read(&self, alloc: Global, input: &mut I) -> ModalResult<char, E> {
        let escaped = dispatch! {any();
            'b' => empty().value('\u{8}'),
            'n' => empty().value('\n'),
            't' => empty().value('\t'),
            '\\' => empty().value('\\'),
            '"' => empty().value('"'),
            _ => fail(),
        };
        ask(alloc, input, &preceded(one_of('\\'), escaped))
    }
}

/// Reads a character that is written after a backslash.
pub fn read_escaped<'a>(alloc: Global, input: &mut &'a str) -> ModalResult<char, EmptyError> {
    part(Escaped).parse_next(alloc, input)
}

/// Reads a character that is written after a backslash, from a piece.
pub fn read_escaped_of_piece<'a>(
    alloc: Global,
    input: &mut Partial<&'a str>,
) -> ModalResult<char, EmptyError> {
    part(Escaped).parse_next(alloc, input)
}

// A sign and digits after it, or a mark and letters after it. Marks may be switched off.
#[derive(Clone, Copy, Drop)]
struct Marked {
    marks: bool,
}

impl<I: Text, E: ParserError<I>> Reads<I, E> for Marked {
    type Output = (char, I::Piece);

    fn read(&self, alloc: Global, input: &mut I) -> ModalResult<(char, I::Piece), E> {
        let marks = self.marks;
        let marked = dispatch!(any();
            sign @ ('+' | '-') => digit1().map(move |digits: I::Piece| (sign, digits)),
            '@' if marks => alpha1().map(|letters: I::Piece| ('@', letters)),
            _ => fail(),
        );
        ask(alloc, input, &marked)
    }
}

/// Reads a sign and digits after it, or, if `marks` says so, a mark and letters after it.
pub fn read_marked<'a>(
    alloc: Global,
    input: &mut &'a str,
    marks: bool,
) -> ModalResult<(char, &'a str), EmptyError> {
    part(Marked { marks }).parse_next(alloc, input)
}

/// Reads the same from a piece.
pub fn read_marked_of_piece<'a>(
    alloc: Global,
    input: &mut Partial<&'a str>,
    marks: bool,
) -> ModalResult<(char, &'a str), EmptyError> {
    part(Marked { marks }).parse_next(alloc, input)
}

// Digits, or the same in brackets: in how many brackets they stand.
#[derive(Clone, Copy, Drop)]
struct Depth;

impl<I: Text> Layer<I, EmptyError> for Depth {
    type Output = usize;

    fn read<P: Parser<I, EmptyError, Output = usize> + Copy + Drop>(
        &self,
        alloc: Global,
        input: &mut I,
        inner: P,
    ) -> ModalResult<usize, EmptyError> {
        let depth = dispatch!(peek(any());
            '[' => delimited('[', inner, ']').map(|depth: usize| depth.saturating_add(1)),
            '0'..='9' => digit1().map(|_: I::Piece| 0),
            _ => fail(),
        );
        ask(alloc, input, &depth)
    }
}

/// Reads digits in at most ten brackets, and returns in how many they stand.
pub fn read_depth<'a>(alloc: Global, input: &mut &'a str) -> ModalResult<usize, EmptyError> {
    nested(Depth, 10).parse_next(alloc, input)
}

/// Reads the same from a piece.
pub fn read_depth_of_piece<'a>(
    alloc: Global,
    input: &mut Partial<&'a str>,
) -> ModalResult<usize, EmptyError> {
    nested(Depth, 10).parse_next(alloc, input)
}
