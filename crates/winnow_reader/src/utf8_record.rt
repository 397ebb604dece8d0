//! `Utf8Record`: a record of text as one of bytes that are UTF-8.

ghost use Rattle.std.specs.Prelude.{◌≡◌};
ghost use Rattle.winnow_reader.specs.InUtf8.{InUtf8};
ghost use Rattle.winnow_reader.specs.TextTelling.{Utf8Errors};
ghost use Rattle.winnow_reader.specs.Utf8Laws.{IsParser-InUtf8};

use crate::asking_text::ask_fronts;
use crate::{ByteReader, Record, RecordInput, TextRecord};
use std::alloc::Global;
use winnow_parser::ModalResult;
use winnow_stream::{Location, Stream, StreamIsPartial};

/// Why a record of text failed over bytes.
#[derive(Debug, Drop, PartialEq, Eq)]
pub enum TextError<E> {
    /// The record failed in the text
    Text(E),
    /// The text goes on with bytes that are no UTF-8, or ends within a character
    Damaged,
}

/// A record of text, read from bytes that are UTF-8.
///
/// The record is asked of the longest front of the bytes that is UTF-8. A character that breaks off
/// there is waited for. Where the bytes go on with a sequence that is none, or the input ends
/// within a character, the record is told that more may follow; if it then needs more, the failure
/// is [`TextError::Damaged`], a cut at the first byte that is no character. It is told nowhere
/// else: each other failure is the record's own. An error of the record is one for the first 256
/// bytes, 512, 1024 and so on, or for all: the fewest to which it has an answer.
#[derive(Drop)]
pub struct Utf8Record<R> {
    parser: R,
}

/// A reader of records of text from bytes that come in pieces, cut anywhere:
///
/// ```
/// let mut reader = TextReader::new(alloc, Utf8Record::new(text_line()));
/// ```
pub type TextReader<R> = ByteReader<Utf8Record<R>>;

impl<R> Utf8Record<R> {
    /// Returns this record of text as a record of bytes.
    pub fn new(parser: R) -> Self
        ensures { result.parser ≡ parser }
    {
        Utf8Record { parser }
    }
}

impl<R: TextRecord> Record for Utf8Record<R> {
    type Output = R::Output;

    type Error = TextError<R::Error>;

    ghost means = { λ r. InUtf8 (R.means r.parser) };

    ghost errors = { λ r. Utf8Errors (R.means r.parser) (R.errors r.parser) };

    ghost ready = { λ r. R.ready r.parser };

    ghost lawful = { λ r. IsParser-InUtf8 (R.means r.parser) (R.lawful r.parser) };

    fn read<'b>(
        &self,
        alloc: Global,
        input: &mut RecordInput<'b>,
    ) -> ModalResult<R::Output, TextError<R::Error>> {
        let bytes = input.peek_finish();
        let place = input.current_token_start();
        let partial = input.is_partial();
        let (answer, taken) = ask_fronts(&self.parser, alloc, bytes, place, partial);
        let _ = input.next_slice(taken);
        answer
    }
}
