//! Records of a grammar of one's own: `ReadsRecord` and `ReadsTextRecord`, for readers over pieces.

ghost use Rattle.winnow_parser.specs.Errors.{AnyError};
ghost use Rattle.winnow_parser.specs.Answer.{outcome};
ghost use Rattle.winnow_wrap.specs.Flag.{flag};
ghost use Rattle.winnow_reader.specs.Place.{stands};
ghost use Rattle.winnow_reader.specs.TextPlace.{stands_text};
ghost use Rattle.winnow_grammar.specs.AnyAnswer.{AnyAnswer, IsParser-AnyAnswer};

use std::alloc::Global;
use winnow_parser::ModalResult;
use winnow_reader::{Record, RecordInput, TextRecord, TextRecordInput};

/// What is read again and again from bytes that come in pieces, with no promise but that of each
/// parser. A body ends in [`ask`](crate::ask), and [`record`] makes a record of it.
pub trait ReadsRecord {
    /// What it reads, which borrows nothing of the bytes.
    type Output: Drop;

    /// What its failures carry.
    type Error;

    /// Reads it from the front of the stream.
    fn read<'b>(
        &self,
        alloc: Global,
        input: &mut RecordInput<'b>,
    ) -> ModalResult<Self::Output, Self::Error>
        ensures { AnyAnswer (flag input.old) (stands input.old)
            (outcome result (stands input.new)) };
}

/// What is read again and again from text that comes as bytes in pieces, as [`ReadsRecord`] over
/// characters. [`text_record`] makes a record of it.
pub trait ReadsTextRecord {
    /// What it reads, which borrows nothing of the text.
    type Output: Drop;

    /// What its failures carry.
    type Error;

    /// Reads it from the front of the stream.
    fn read<'b>(
        &self,
        alloc: Global,
        input: &mut TextRecordInput<'b>,
    ) -> ModalResult<Self::Output, Self::Error>
        ensures { AnyAnswer (flag input.old) (stands_text input.old)
            (outcome result (stands_text input.new)) };
}

/// The record of bytes of a grammar; [`record`] makes it.
#[derive(Clone, Copy, Drop)]
pub struct PlainRecord<R> {
    pub(crate) reads: R,
}

/// The record of text of a grammar; [`text_record`] makes it.
#[derive(Clone, Copy, Drop)]
pub struct PlainTextRecord<R> {
    pub(crate) reads: R,
}

impl<R: ReadsRecord> Record for PlainRecord<R> {
    type Output = R::Output;

    type Error = R::Error;

    ghost means = { λ _. AnyAnswer };

    ghost errors = { λ _. AnyError };

    ghost ready = { λ _. Unit {0} };

    ghost lawful = { λ _. IsParser-AnyAnswer };

    fn read<'b>(
        &self,
        alloc: Global,
        input: &mut RecordInput<'b>,
    ) -> ModalResult<R::Output, R::Error> {
        self.reads.read(alloc, input)
    }
}

impl<R: ReadsTextRecord> TextRecord for PlainTextRecord<R> {
    type Output = R::Output;

    type Error = R::Error;

    ghost means = { λ _. AnyAnswer };

    ghost errors = { λ _. AnyError };

    ghost ready = { λ _. Unit {0} };

    ghost lawful = { λ _. IsParser-AnyAnswer };

    fn read<'b>(
        &self,
        alloc: Global,
        input: &mut TextRecordInput<'b>,
    ) -> ModalResult<R::Output, R::Error> {
        self.reads.read(alloc, input)
    }
}
