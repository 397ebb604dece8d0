//! The parser of a record, and those of its fields and of its end.

ghost use Rattle.winnow_parser.specs.Errors.{AnyError};
ghost use Rattle.format_csv.specs.Meanings.{FieldList, RecordEnd, OneRow, IsParser-OneRow};
ghost use Rattle.format_csv.specs.Meanings.{IsParser-FieldList, IsParser-RecordEnd};

use crate::{Plain, Quoted};
use std::alloc::Global;
use winnow_combinator::{alt, cut_err, eof, not, preceded, separated, terminated};
use winnow_error::ParserError;
use winnow_parser::{ModalResult, Parser};
use winnow_stream::{AsBytes, Stream, StreamIsPartial};
use winnow_token::one_of;

/// The parser of fields with commas between them: one or more fields of either kind.
#[derive(Clone, Copy, Debug)]
pub struct Fields;

impl<I: StreamIsPartial + Stream<Token = u8>, E: ParserError<I>> Parser<I, E> for Fields
where
    I::Slice: AsBytes + Drop,
{
    type Output = Vec<Vec<u8>>;

    ghost means = { λ _. FieldList I.is_slice I.Slice.bytes E.append_refusable E.or_refusable };

    ghost errors = { λ _. AnyError };

    ghost ready = { λ _. Unit {0} };

    ghost lawful = { λ _.
        IsParser-FieldList I.is_slice I.Slice.bytes I.slices_stay E.append_refusable
        E.or_refusable };

    fn parse_next(&self, alloc: Global, input: &mut I) -> ModalResult<Vec<Vec<u8>>, E> {
        match separated(1.., alt((Quoted, Plain)), one_of(b',')).parse_next(alloc, input) {
            Ok(fields) => Ok(fields),
            Err(failure) => Err(failure),
        }
    }
}

/// The parser of the end of a record: LF, CR LF, or the end of the input.
#[derive(Clone, Copy, Debug)]
pub struct RowEnd;

impl<I: StreamIsPartial + Stream<Token = u8>, E: ParserError<I>> Parser<I, E> for RowEnd
where
    I::Slice: Drop,
{
    type Output = ();

    ghost means = { λ _. RecordEnd I.is_slice E.append_refusable E.or_refusable };

    ghost errors = { λ _. AnyError };

    ghost ready = { λ _. Unit {0} };

    ghost lawful = { λ _. IsParser-RecordEnd I.is_slice E.append_refusable E.or_refusable };

    fn parse_next(&self, alloc: Global, input: &mut I) -> ModalResult<(), E> {
        let newline = Parser::<I, E>::void(one_of(b'\n'));
        let both = Parser::<I, E>::void((one_of(b'\r'), one_of(b'\n')));
        let ended = Parser::<I, E>::void(eof());
        match alt((newline, both, ended)).parse_next(alloc, input) {
            Ok(()) => Ok(()),
            Err(failure) => Err(failure),
        }
    }
}

/// The parser of one record; [`read_record`](crate::read_record) says what it reads in the words of
/// the format.
#[derive(Clone, Copy, Debug)]
pub struct Row;

impl<I: StreamIsPartial + Stream<Token = u8>, E: ParserError<I>> Parser<I, E> for Row
where
    I::Slice: AsBytes + Drop,
{
    type Output = Vec<Vec<u8>>;

    ghost means = { λ _. OneRow I.is_slice I.Slice.bytes E.append_refusable E.or_refusable };

    ghost errors = { λ _. AnyError };

    ghost ready = { λ _. Unit {0} };

    ghost lawful = { λ _. IsParser-OneRow I.is_slice I.Slice.bytes I.slices_stay E.append_refusable
        E.or_refusable };

    fn parse_next(&self, alloc: Global, input: &mut I) -> ModalResult<Vec<Vec<u8>>, E> {
        preceded(not(eof()), terminated(Fields, cut_err(RowEnd))).parse_next(alloc, input)
    }
}
