//! Records of text: a word of any characters on a line of its own.

ghost use Rattle.std.specs.String.{string_bytes};
ghost use Rattle.winnow_parser.specs.Errors.{AnyError};
ghost use Rattle.winnow_parser.specs.Parts.{IsParser-IsTerminated};
ghost use Rattle.winnow_token.specs.OneOf.{IsParser-IsOneOf};
ghost use Rattle.winnow_token.specs.TakeWhile.{IsParser-TakesWhile};
ghost use Rattle.winnow_reader.specs.TextPlace.{SlicesStay-text};
ghost use Rattle.winnow_reader.specs.Copied.{Copied, IsParser-Copied};

use std::alloc::Global;
use winnow_combinator::{Terminated, terminated};
use winnow_error::EmptyError;
use winnow_parser::{Failure, ModalResult, Parser};
use winnow_reader::{TextRecord, TextRecordInput};
use winnow_token::{OneOf, TakeTill, one_of, take_till};

type Word = Terminated<TakeTill<char>, OneOf<char>>;

// Characters, and a newline after them: what is read is a copy of the characters.
#[derive(Drop)]
pub(crate) struct TextLine {
    parser: Word,
}

pub(crate) fn text_line() -> TextLine {
    TextLine {
        parser: terminated(take_till(1.., '\n'), one_of('\n')),
    }
}

impl TextRecord for TextLine {
    type Output = String;

    type Error = EmptyError;

    ghost means = { λ r. Copied (λ s. s.now) (λ v. string_bytes v)
        (⟦<Word as Parser<TextRecordInput<'static>, EmptyError>>⟧.means r.parser) };

    ghost errors = { λ _. AnyError };

    ghost ready = { λ r. ⟦<Word as Parser<TextRecordInput<'static>, EmptyError>>⟧.ready r.parser };

    ghost lawful = { λ _. IsParser-Copied _ _ _ (IsParser-IsTerminated _ _
        (IsParser-TakesWhile _ SlicesStay-text _ _ _) (IsParser-IsOneOf _)) };

    fn read<'b>(
        &self,
        alloc: Global,
        input: &mut TextRecordInput<'b>,
    ) -> ModalResult<String, EmptyError> {
        match self.parser.parse_next(alloc, input) {
            Ok(word) => match String::from_str(alloc, word) {
                Ok(copy) => Ok(copy),
                Err(refused) => Err(Failure::Refused(refused)),
            },
            Err(failure) => Err(failure),
        }
    }
}
