//! Records: a decimal number or a word on a line of its own, and one that takes nothing.

ghost use Rattle.winnow_parser.specs.Errors.{AnyError};
ghost use Rattle.winnow_parser.specs.Meanings.{Returns};
ghost use Rattle.winnow_parser.specs.Parts.{IsParser-Returns, IsParser-IsTerminated};
ghost use Rattle.winnow_token.specs.OneOf.{IsParser-IsOneOf};
ghost use Rattle.winnow_token.specs.TakeWhile.{IsParser-TakesWhile};
ghost use Rattle.winnow_ascii.specs.Numbers.{IsParser-IsDecUint, IsParser-ReadAs};
ghost use Rattle.winnow_reader.specs.Place.{IsByteSlice, SlicesStay-bytes};
ghost use Rattle.winnow_reader.specs.Copied.{Copied, IsParser-Copied};
ghost use Rattle.winnow_reader.specs.Telling.{OfParser};

use std::alloc::Global;
use winnow_ascii::{Class, DecUint, alpha1, dec_uint};
use winnow_combinator::{Terminated, terminated};
use winnow_count::ParseSlice;
use winnow_error::{EmptyError, ParserError};
use winnow_parser::{Failure, ModalResult, Parser};
use winnow_reader::{Record, RecordInput};
use winnow_sets::{AsChar, FixedSet};
use winnow_token::{OneOf, TakeWhile, one_of};

type Line = Terminated<DecUint<u32>, OneOf<u8>>;

// A number, and a newline after it.
#[derive(Drop)]
pub(crate) struct NumberLine {
    parser: Line,
}

pub(crate) fn number_line() -> NumberLine {
    NumberLine {
        parser: terminated(dec_uint(), one_of(b'\n')),
    }
}

impl Record for NumberLine {
    type Output = u32;

    type Error = EmptyError;

    ghost means = { λ r. ⟦<Line as Parser<RecordInput<'static>, EmptyError>>⟧.means r.parser };

    ghost errors = { λ r.
        OfParser (⟦<Line as Parser<RecordInput<'static>, EmptyError>>⟧.errors r.parser) };

    ghost ready = { λ r. ⟦<Line as Parser<RecordInput<'static>, EmptyError>>⟧.ready r.parser };

    ghost lawful = { λ r. IsParser-IsTerminated _ _
        (IsParser-ReadAs ⟦<&'static [u8] as ParseSlice<u32>>⟧.reads IsByteSlice SlicesStay-bytes _
        (IsParser-IsDecUint ⟦<EmptyError as ParserError<RecordInput<'static>>>⟧.or_refusable
        ⟦<EmptyError as ParserError<RecordInput<'static>>>⟧.append_refusable
        IsByteSlice SlicesStay-bytes ⟦<u8 as AsChar>⟧.code))
        (IsParser-IsOneOf (⟦<u8 as FixedSet<u8>>⟧.holds r.parser.second.set)) };

    fn read<'b>(&self, alloc: Global, input: &mut RecordInput<'b>) -> ModalResult<u32, EmptyError> {
        self.parser.parse_next(alloc, input)
    }
}

type Word = Terminated<TakeWhile<Class>, OneOf<u8>>;

// Letters, and a newline after them: what is read is a copy of the letters.
#[derive(Drop)]
pub(crate) struct WordLine {
    parser: Word,
}

pub(crate) fn word_line() -> WordLine {
    WordLine {
        parser: terminated(alpha1(), one_of(b'\n')),
    }
}

impl Record for WordLine {
    type Output = Vec<u8>;

    type Error = EmptyError;

    ghost means = { λ r. Copied (λ s. s.now) (λ v. v.items)
        (⟦<Word as Parser<RecordInput<'static>, EmptyError>>⟧.means r.parser) };

    ghost errors = { λ _. AnyError };

    ghost ready = { λ r. ⟦<Word as Parser<RecordInput<'static>, EmptyError>>⟧.ready r.parser };

    ghost lawful = { λ _. IsParser-Copied _ _ _ (IsParser-IsTerminated _ _
        (IsParser-TakesWhile _ SlicesStay-bytes _ _ _) (IsParser-IsOneOf _)) };

    fn read<'b>(
        &self,
        alloc: Global,
        input: &mut RecordInput<'b>,
    ) -> ModalResult<Vec<u8>, EmptyError> {
        match self.parser.parse_next(alloc, input) {
            Ok(letters) => match letters.to_vec(alloc) {
                Ok(copy) => Ok(copy),
                Err(refused) => Err(Failure::Refused(refused)),
            },
            Err(failure) => Err(failure),
        }
    }
}

// What takes nothing, and gives a value at once.
#[derive(Drop)]
pub(crate) struct Nothing;

impl Record for Nothing {
    type Output = ();

    type Error = EmptyError;

    ghost means = { λ _. Returns tt };

    ghost errors = { λ _. AnyError };

    ghost ready = { λ _. Unit {0} };

    ghost lawful = { λ _. IsParser-Returns tt };

    fn read<'b>(
        &self,
        _alloc: Global,
        _input: &mut RecordInput<'b>,
    ) -> ModalResult<(), EmptyError> {
        Ok(())
    }
}
