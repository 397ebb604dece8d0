//! `ParseError`: the error of a whole parse, with its input and its offset.

ghost use Rattle.std.specs.Prelude.{◌≡◌, ◌-◌};
ghost use Rattle.winnow_stream.specs.Source.{width, IsEndOf};
ghost use Rattle.winnow_error_parse.specs.CharSpan.{char_span};

use crate::char_span::char_span;
use std::marker::Model;
use std::ops::Range;
use winnow_error::ParserError;
use winnow_stream::{AsBStr, Stream};

/// The error of a whole parse, with the place in the input where it occurred.
///
/// Contracts see the input, the offset and the error. The text and the span of the character are
/// those of the bytes that the input gives by [`AsBStr`], at any offset: nothing says that these
/// are the bytes that remain, so nothing is required of them.
#[derive(Clone, Copy, Debug, PartialEq, Eq, Drop)]
pub struct ParseError<I, E> {
    input: I,
    offset: usize,
    inner: E,
}

impl<I, E> Model for ParseError<I, E> {
    ghost use Rattle.winnow_error_parse.specs.Failure.{Failure};

    ghost Value = { Failure I E };

    ghost view = { λ e. record { input = e.input; offset = e.offset; inner = e.inner } };

    ghost inverse = { λ v. record { input = v.input; offset = v.offset; inner = v.inner } };
}

impl<I: Stream, E: ParserError<I>> ParseError<I, E> {
    /// Returns the error of a parse that began at `start` and failed at the input's position. The
    /// error holds the input as it stood at `start`.
    pub fn new(input: I, start: I::Checkpoint, inner: E) -> Self
        requires valid { I.valid input }
        requires valid_checkpoint { I.valid_checkpoint start }
        requires is_end { IsEndOf (I.remaining input) (I.remained start) }
        ensures offset { result.offset ≡ width (I.remained start) - width (I.remaining input) }
        ensures remaining { I.remaining result.input ≡ I.remained start }
        ensures location { I.location result.input ≡ I.Checkpoint.location start }
        ensures valid { I.valid result.input }
        ensures kept { I.keeps input result.input }
        ensures inner { result.inner ≡ inner }
    {
        let mut input = input;
        let offset = input.offset_since(&start);
        input.reset(&start);
        ParseError {
            input,
            offset,
            inner,
        }
    }
}

impl<I, E> ParseError<I, E> {
    /// Returns the input as it stood where the parse began.
    pub fn input(&self) -> &I
        ensures { result.now ≡ self.now.input }
    {
        &self.input
    }

    /// Returns the offset from the start to where the error occurred.
    pub fn offset(&self) -> usize
        ensures { result ≡ self.now.offset }
    {
        self.offset
    }

    /// Returns the inner error.
    pub fn inner(&self) -> &E
        ensures { result.now ≡ self.now.inner }
    {
        &self.inner
    }
}

impl<I: Drop, E> ParseError<I, E> {
    /// Returns the inner error without its place.
    pub fn into_inner(self) -> E
        ensures { result ≡ self.inner }
    {
        self.inner
    }
}

impl<I: AsBStr, E> ParseError<I, E> {
    /// Returns the span of the character at the offset. The span is empty at the end.
    pub fn char_span(&self) -> Range<usize>
        ensures { result ≡ char_span (I.text_bytes self.now.input) self.now.offset }
    {
        char_span(self.input.as_bstr(), self.offset)
    }
}
