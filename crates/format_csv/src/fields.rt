//! The parsers of a field, plain or quoted.

ghost use Rattle.std.specs.Prelude.{◌≡◌, None};
ghost use Rattle.winnow_parser.specs.Answer.{ahead, outcome};
ghost use Rattle.winnow_parser.specs.Errors.{AnyError};
ghost use Rattle.winnow_count.specs.CountRange.{HasCounts};
ghost use Rattle.format_csv.specs.Meanings.{IsChunk, PlainField, QuotedField};
ghost use Rattle.format_csv.specs.Meanings.{IsParser-PlainField, IsParser-QuotedField};

use crate::Chunks;
use std::alloc::Global;
use winnow_combinator::{CutErr, Delimited, cut_err, delimited, repeat};
use winnow_error::ParserError;
use winnow_parser::{Failure, ModalResult, Parser};
use winnow_stream::{AsBytes, Stream, StreamIsPartial};
use winnow_token::{OneOf, TakeTill, one_of, take_till};

// Returns the parser of what stands between two quotes. It cuts where the closing one is missing.
fn chunk() -> Delimited<OneOf<u8>, TakeTill<u8>, CutErr<OneOf<u8>>>
    ensures { IsChunk result }
{
    delimited(one_of(b'"'), take_till(0.., b'"'), cut_err(one_of(b'"')))
}

/// The parser of a quoted field: one or more texts between quotes, with nothing between them. It
/// gives what the field means, where a doubled quote is one quote.
///
/// It backtracks if the input starts with no quote, and cuts at the end of an input that ends
/// before the closing quote.
#[derive(Clone, Copy, Debug)]
pub struct Quoted;

impl<I: StreamIsPartial + Stream<Token = u8>, E: ParserError<I>> Parser<I, E> for Quoted
where
    I::Slice: AsBytes + Drop,
{
    type Output = Vec<u8>;

    ghost means = { λ _. QuotedField I.is_slice I.Slice.bytes };

    ghost errors = { λ _. AnyError };

    ghost ready = { λ _. Unit {0} };

    ghost lawful = { λ _. IsParser-QuotedField I.is_slice I.Slice.bytes I.slices_stay };

    fn parse_next(&self, alloc: Global, input: &mut I) -> ModalResult<Vec<u8>, E> {
        let answer: ModalResult<Chunks, E> = repeat(1.., chunk()).parse_next(alloc, input);
        match answer {
            Ok(chunks) => Ok(chunks.into_value()),
            Err(failure) => Err(failure),
        }
    }
}

/// The parser of a field without quotes: the bytes up to the first quote, comma or line break, or
/// to the end of the input. There may be none of them.
#[derive(Clone, Copy, Debug)]
pub struct Plain;

impl<I: StreamIsPartial + Stream<Token = u8>, E: ParserError<I>> Parser<I, E> for Plain
where
    I::Slice: AsBytes + Drop,
{
    type Output = Vec<u8>;

    ghost means = { λ _. PlainField I.is_slice I.Slice.bytes };

    ghost errors = { λ _. AnyError };

    ghost ready = { λ _. Unit {0} };

    ghost lawful = { λ _. IsParser-PlainField I.is_slice I.Slice.bytes I.slices_stay };

    fn parse_next(&self, alloc: Global, input: &mut I) -> ModalResult<Vec<u8>, E> {
        let text = take_till(0.., (b'"', b',', b'\r', b'\n'));
        match text.parse_next(alloc, input) {
            Ok(slice) => match Vec::from_slice(alloc, slice.as_bytes()) {
                Ok(field) => Ok(field),
                Err(refused) => Err(Failure::Refused(refused)),
            },
            Err(failure) => Err(failure),
        }
    }
}
