//! Reading a reply from a stream, and replies from bytes that come in pieces.

ghost use Rattle.winnow_parser.specs.Outcome.{Moves};
ghost use Rattle.winnow_parser.specs.Answer.{ahead};
ghost use Rattle.winnow_stream.specs.SliceBytes.{SlicesHaveBytes};
ghost use Rattle.format_resp.specs.Answers.{IsAnswer, GivesEach};
ghost use Rattle.winnow_parser.specs.Errors.{AnyError};
ghost use Rattle.winnow_reader.specs.Place.{IsByteSlice, SlicesStay-bytes};
ghost use Rattle.format_resp.specs.Meanings.{IsParser-Nested};

use crate::{Reply, ReplyTo};
use std::alloc::Global;
use winnow_error::{EmptyError, ParserError};
use winnow_parser::{ModalResult, Parser};
use winnow_reader::{Record, RecordInput};
use winnow_sets::AsChar;
use winnow_stream::{AsBytes, Stream, StreamIsPartial};

/// Reads a reply within these limits from a stream of bytes.
///
/// It backtracks if the first byte is that of no kind, and consumes nothing then. It cuts at
/// anything else that is no reply: at the end of a text that no line end follows, at the start of a
/// line whose integer or length is none, or whose length passes a limit, and where an array has
/// fewer replies than it says. The length of an array that stands in `depth` arrays may only be 0.
/// Nothing is allocated for a length that is only announced.
pub fn read_reply<I: StreamIsPartial + Stream<Token = u8>, E: ParserError<I>>(
    alloc: Global,
    input: &mut I,
    limits: ReplyTo,
) -> ModalResult<Reply, E>
where
    I::Slice: AsBytes + Drop,
    requires valid { I.valid input.old }
    requires bytes { SlicesHaveBytes I.is_slice I.Slice.bytes }
    ensures answer { IsAnswer limits.longest limits.depth (I.expects_more input.old)
        (I.remaining input.old) result (I.remaining input.new) }
    ensures complete { GivesEach limits.longest limits.depth (I.remaining input.old) result
        (I.remaining input.new) }
    ensures onward { Moves (ahead I.location I.remaining input.old)
        (ahead I.location I.remaining input.new) }
    ensures valid { I.valid input.new }
    ensures kept { I.keeps input.old input.new }
{
    limits.parse_next(alloc, input)
}

/// A reader asks for one reply after the other, as `ScanReader::new(alloc, limits)`.
impl Record for ReplyTo {
    type Output = Reply;

    type Error = EmptyError;

    ghost means = { λ r. ⟦<ReplyTo as Parser<RecordInput<'static>, EmptyError>>⟧.means r };

    ghost errors = { λ _. AnyError };

    ghost ready = { λ _. Unit {0} };

    ghost lawful = { λ r. IsParser-Nested ⟦<u8 as AsChar>⟧.code
        ⟦<RecordInput<'static> as Stream>⟧.counts_shortage IsByteSlice
        ⟦<&'static [u8] as AsBytes>⟧.bytes SlicesStay-bytes r.longest r.depth };

    fn read<'b>(
        &self,
        alloc: Global,
        input: &mut RecordInput<'b>,
    ) -> ModalResult<Reply, EmptyError> {
        self.parse_next(alloc, input)
    }
}
