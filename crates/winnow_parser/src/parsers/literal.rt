//! Literals: the parser of one, and characters, bytes and slices as parsers of themselves.

ghost use Rattle.winnow_parser.specs.Errors.{OwnErrors};
ghost use Rattle.winnow_parser.specs.Meanings.{Maps, IsAlways};
ghost use Rattle.winnow_parser.specs.Parts.{IsParser-Maps};
ghost use Rattle.winnow_parser.specs.Literal.{IsLiteral, IsParser-IsLiteral};

use crate::{Failure, ModalResult, Parser, literal};
use std::alloc::Global;
use winnow_error::ParserError;
use winnow_match::{Compare, CompareResult};
use winnow_stream::{Needed, StreamIsPartial};

/// A parser of a literal; [`literal`] makes it.
#[derive(Clone, Copy, Debug, Drop)]
pub struct Literal<T> {
    pub(crate) text: T,
}

impl<I: Compare<T> + StreamIsPartial, E: ParserError<I>, T: Copy> Parser<I, E> for Literal<T> {
    type Output = I::Slice;

    ghost means = { λ p. IsLiteral I.is_slice (I.compared p.text) };

    ghost errors = { λ _. OwnErrors E.from_input_gives E.assert_gives };

    ghost ready = { λ _. Unit {0} };

    ghost lawful = { λ p.
        IsParser-IsLiteral I.is_slice I.slices_stay (I.compared p.text) (I.comparisons_stay
        p.text) };

    #[inline(always)]
    fn parse_next(&self, alloc: Global, input: &mut I) -> ModalResult<I::Slice, E> {
        match input.compare(self.text) {
            CompareResult::Ok(width) => Ok(input.next_slice(width)),
            CompareResult::Incomplete if input.is_partial() => {
                Err(Failure::Incomplete(Needed::Unknown))
            }
            _ => Err(Failure::Backtrack(E::from_input(alloc, input))),
        }
    }
}

/// A character is the parser of itself: over bytes, of its UTF-8.
impl<I: Compare<char> + StreamIsPartial, E: ParserError<I>> Parser<I, E> for char
where
    I::Slice: Drop,
{
    type Output = char;

    ghost means = { λ p. Maps (IsAlways p) (IsLiteral I.is_slice (I.compared p)) };

    ghost errors = { λ _. OwnErrors E.from_input_gives E.assert_gives };

    ghost ready = { λ _. Unit {0} };

    ghost lawful = { λ p. IsParser-Maps (IsAlways p) (IsLiteral I.is_slice (I.compared p))
        (IsParser-IsLiteral I.is_slice I.slices_stay (I.compared p) (I.comparisons_stay p)) };

    #[inline(always)]
    fn parse_next(&self, alloc: Global, input: &mut I) -> ModalResult<char, E> {
        literal(*self).parse_next(alloc, input)?;
        Ok(*self)
    }
}

/// A byte is the parser of itself.
impl<I: Compare<u8> + StreamIsPartial, E: ParserError<I>> Parser<I, E> for u8
where
    I::Slice: Drop,
{
    type Output = u8;

    ghost means = { λ p. Maps (IsAlways p) (IsLiteral I.is_slice (I.compared p)) };

    ghost errors = { λ _. OwnErrors E.from_input_gives E.assert_gives };

    ghost ready = { λ _. Unit {0} };

    ghost lawful = { λ p. IsParser-Maps (IsAlways p) (IsLiteral I.is_slice (I.compared p))
        (IsParser-IsLiteral I.is_slice I.slices_stay (I.compared p) (I.comparisons_stay p)) };

    #[inline(always)]
    fn parse_next(&self, alloc: Global, input: &mut I) -> ModalResult<u8, E> {
        literal(*self).parse_next(alloc, input)?;
        Ok(*self)
    }
}

/// A text is the parser of the slice that it covers.
impl<'l, I: Compare<&'l str> + StreamIsPartial, E: ParserError<I>> Parser<I, E> for &'l str {
    type Output = I::Slice;

    ghost means = { λ p. IsLiteral I.is_slice (I.compared p) };

    ghost errors = { λ _. OwnErrors E.from_input_gives E.assert_gives };

    ghost ready = { λ _. Unit {0} };

    ghost lawful = { λ p.
        IsParser-IsLiteral I.is_slice I.slices_stay (I.compared p) (I.comparisons_stay p) };

    #[inline(always)]
    fn parse_next(&self, alloc: Global, input: &mut I) -> ModalResult<I::Slice, E> {
        literal(*self).parse_next(alloc, input)
    }
}

/// Bytes are the parser of the slice that they cover.
impl<'l, I: Compare<&'l [u8]> + StreamIsPartial, E: ParserError<I>> Parser<I, E> for &'l [u8] {
    type Output = I::Slice;

    ghost means = { λ p. IsLiteral I.is_slice (I.compared p) };

    ghost errors = { λ _. OwnErrors E.from_input_gives E.assert_gives };

    ghost ready = { λ _. Unit {0} };

    ghost lawful = { λ p.
        IsParser-IsLiteral I.is_slice I.slices_stay (I.compared p) (I.comparisons_stay p) };

    #[inline(always)]
    fn parse_next(&self, alloc: Global, input: &mut I) -> ModalResult<I::Slice, E> {
        literal(*self).parse_next(alloc, input)
    }
}
