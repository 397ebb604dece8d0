//! Reading a record from a stream, from bytes that come in pieces, and all records of a text.

ghost use Rattle.std.specs.Prelude.{◌≡◌, [], false, IfOk, IfErr};
ghost use Rattle.winnow_parser.specs.Outcome.{Moves};
ghost use Rattle.winnow_parser.specs.Answer.{ahead};
ghost use Rattle.winnow_parser.specs.Errors.{AnyError};
ghost use Rattle.winnow_reader.specs.Place.{IsByteSlice, SlicesStay-bytes};
ghost use Rattle.winnow_stream.specs.SliceBytes.{SlicesHaveBytes};
ghost use Rattle.format_lemmas.specs.Bytes.{bytes_of};
ghost use Rattle.format_csv.specs.Answers.{IsAnswer, GivesEach};
ghost use Rattle.format_csv.specs.Meanings.{IsParser-OneRow};
ghost use Rattle.format_csv.specs.Reading.{RowInPieces};
ghost use Rattle.format_csv.specs.Tables.{rows_in, AreRecords, IsDamage};

use crate::Row;
use std::alloc::Global;
use winnow_error::{EmptyError, ParserError};
use winnow_parser::{Failure, ModalResult, Parser, WholeResult};
use winnow_reader::{Record, RecordInput};
use winnow_stream::{AsBytes, Stream, StreamIsPartial, slice_bytes_law};

/// Reads one record from a stream of bytes, and moves the stream past its end.
///
/// It backtracks at the end of the input, and does not move. If the input starts with no record, it
/// cuts, and leaves the stream at the byte after a field that is neither a comma nor the end of a
/// line, or at the end of the input if a closing quote is missing.
pub fn read_record<I: StreamIsPartial + Stream<Token = u8>, E: ParserError<I>>(
    alloc: Global,
    input: &mut I,
) -> ModalResult<Vec<Vec<u8>>, E>
where
    I::Slice: AsBytes + Drop,
    requires valid { I.valid input.old }
    requires bytes { SlicesHaveBytes I.is_slice I.Slice.bytes }
    ensures answer { IsAnswer (I.expects_more input.old) (bytes_of (I.remaining input.old))
        result (bytes_of (I.remaining input.new)) }
    ensures complete { GivesEach (I.expects_more input.old) (bytes_of (I.remaining input.old))
        result (bytes_of (I.remaining input.new)) }
    ensures onward { Moves (ahead I.location I.remaining input.old)
        (ahead I.location I.remaining input.new) }
    ensures valid { I.valid input.new }
    ensures kept { I.keeps input.old input.new }
{
    Row.parse_next(alloc, input)
}

/// A record of comma-separated values, read from bytes that come in pieces.
impl Record for Row {
    type Output = Vec<Vec<u8>>;

    type Error = EmptyError;

    ghost means = { λ _. RowInPieces };

    ghost errors = { λ _. AnyError };

    ghost ready = { λ _. Unit {0} };

    ghost lawful = { λ _. IsParser-OneRow IsByteSlice (λ slice. slice.now) SlicesStay-bytes ⊥ ⊥ };

    fn read<'b>(
        &self,
        alloc: Global,
        input: &mut RecordInput<'b>,
    ) -> ModalResult<Vec<Vec<u8>>, EmptyError> {
        self.parse_next(alloc, input)
    }
}

/// Where a table is damaged.
#[derive(Clone, Copy, Debug, Drop, PartialEq, Eq)]
pub struct Damage {
    /// The number of the records before the damaged one
    pub rows: usize,
    /// The offset of the byte where it breaks off, or the length of the text where a closing quote
    /// is missing
    pub offset: usize,
}

// Reads one record from bytes to which nothing is added.
fn next_row(alloc: Global, input: &mut &[u8]) -> ModalResult<Vec<Vec<u8>>, EmptyError>
    ensures answer { IsAnswer false input.old.now result input.new.now }
    ensures complete { GivesEach false input.old.now result input.new.now }
{
    slice_bytes_law();
    read_record(alloc, input)
}

/// Reads all records of a text, in order. The inner error says where a record is damaged, and the
/// outer one that memory was refused.
///
/// Records may have different numbers of fields; [`first_uneven`](crate::first_uneven) finds
/// the first that does.
pub fn read_table(alloc: Global, text: &[u8]) -> WholeResult<Vec<Vec<Vec<u8>>>, Damage>
    ensures table { IfOk result (λ answer. IfOk answer (λ table.
        AreRecords text.now (rows_in table.items) [])) }
    ensures damaged { IfOk result (λ answer. IfErr answer (IsDamage text.now)) }
{
    let mut table = Vec::new(alloc);
    let mut input = text;
    loop {
        match next_row(alloc, &mut input) {
            Ok(row) => table.push(row)?,
            Err(Failure::Backtrack(_)) => return Ok(Ok(table)),
            Err(Failure::Refused(refused)) => return Err(refused),
            Err(Failure::Incomplete(_)) => unreachable!(),
            Err(Failure::Cut(_)) => {
                let rows = table.len();
                let offset = text.len() - input.len();
                return Ok(Err(Damage { rows, offset }));
            }
        }
    }
}
