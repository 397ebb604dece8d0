//! Reading a value from a stream, a whole text as one value, and tokens that come in pieces.

ghost use Rattle.std.specs.Prelude.{IfOk, IfErr};
ghost use Rattle.winnow_parser.specs.Outcome.{Moves};
ghost use Rattle.winnow_parser.specs.Answer.{ahead};
ghost use Rattle.winnow_parser.specs.Errors.{AnyError};
ghost use Rattle.winnow_stream.specs.SliceBytes.{SlicesHaveBytes};
ghost use Rattle.format_lemmas.specs.Bytes.{bytes_of};
ghost use Rattle.format_json_scalars.specs.Needing.{NeedsOneByte};
ghost use Rattle.format_json.specs.Answers.{IsReading, IsValueAnswer, GivesEachValue};
ghost use Rattle.format_json.specs.Documents.{IsDocument, IsOnlyDocument, IsDamage};
ghost use Rattle.format_json.specs.TokenAnswers.{OneToken};
ghost use Rattle.format_json.specs.TokenLaws.{IsParser-OneToken};

use crate::found::{Found, blank_count};
use crate::grammar::value_at;
use crate::tokens::token_at;
use crate::{Token, Value};
use std::alloc::{AllocError, Global};
use winnow_error::{EmptyError, ParserError};
use winnow_parser::{Failure, ModalResult, WholeResult};
use winnow_reader::{Record, RecordInput};
use winnow_stream::{AsBytes, Needed, Stream, StreamIsPartial};

// What some bytes are as a value.
#[derive(Debug, Drop)]
enum Reading {
    // Blanks alone, and nothing may follow
    Nothing,
    // This value, and the number of its bytes
    Whole(Value, usize),
    // The bytes end too early, and more may follow
    Begun,
    // No value, no matter what follows, and the number of bytes before the place where it breaks
    // off
    Damaged(usize),
}

// Reads a value with which the bytes begin.
fn read_bytes(
    alloc: Global,
    bytes: &[u8],
    partial: bool,
    depth: usize,
) -> Result<Reading, AllocError>
    ensures { IfOk result (IsReading depth partial bytes.now) }
{
    if !partial {
        if blank_count(bytes) == bytes.len() {
            return Ok(Reading::Nothing);
        }
    }
    match value_at(alloc, bytes, partial, depth)? {
        Found::Whole(value, width) => Ok(Reading::Whole(value, width)),
        Found::Begun => Ok(Reading::Begun),
        Found::Damaged(width) => Ok(Reading::Damaged(width)),
    }
}

/// Reads a value from a stream of bytes, with the blanks before it, and moves the stream past its
/// end. Each value in it stands within at most `depth` arrays and objects: at 0 an array or an
/// object is read only if it is empty.
///
/// The parser backtracks if the input is blanks alone and nothing may follow, and does not move.
/// Else it cuts if the input starts with no value on any continuation, at the place at which the
/// value breaks off: where no value begins, or one that is too deep; at the start of a word or a
/// number that is none; where a string is malformed, as in [`read_string`](crate::read_string); and
/// where a comma, a colon or a closing bracket is missing. A number ends as in
/// [`read_number`](crate::read_number).
///
/// One byte more is needed if the input starts with no value yet, and a value is begun that more
/// bytes can complete: also after a number, which may continue.
///
/// Calls are nested as deep as the arrays and objects that are read, so `depth` limits the stack.
pub fn read_value<I: StreamIsPartial + Stream<Token = u8>, E: ParserError<I>>(
    alloc: Global,
    depth: usize,
    input: &mut I,
) -> ModalResult<Value, E>
where
    I::Slice: AsBytes + Drop,
    requires valid { I.valid input.old }
    requires bytes { SlicesHaveBytes I.is_slice I.Slice.bytes }
    ensures answer { IsValueAnswer depth (I.expects_more input.old)
        (bytes_of (I.remaining input.old)) result (bytes_of (I.remaining input.new)) }
    ensures complete { GivesEachValue depth (I.expects_more input.old)
        (bytes_of (I.remaining input.old)) result (bytes_of (I.remaining input.new)) }
    ensures need { NeedsOneByte result }
    ensures onward { Moves (ahead I.location I.remaining input.old)
        (ahead I.location I.remaining input.new) }
    ensures valid { I.valid input.new }
    ensures kept { I.keeps input.old input.new }
{
    let ahead = input.peek_finish();
    match read_bytes(alloc, ahead.as_bytes(), input.is_partial(), depth) {
        Err(refused) => Err(Failure::Refused(refused)),
        Ok(Reading::Nothing) => Err(Failure::Backtrack(E::from_input(alloc, input))),
        Ok(Reading::Begun) => Err(Failure::Incomplete(Needed::new(1))),
        Ok(Reading::Whole(value, width)) => {
            let _ = input.next_slice(width);
            Ok(value)
        }
        Ok(Reading::Damaged(width)) => {
            let _ = input.next_slice(width);
            Err(Failure::Cut(E::from_input(alloc, input)))
        }
    }
}

/// Where a text is damaged.
#[derive(Clone, Copy, Debug, Drop, PartialEq, Eq)]
pub struct Damage {
    /// The offset at which the value breaks off, as for [`read_value`](crate::read_value), or at
    /// which something else follows it. Where the text ends too early, it is the length of the
    /// text, or the offset at which a word, a number or a character of a string begins that is cut
    /// off.
    pub offset: usize,
}

/// Reads a text that is one value, with blanks around it and nothing else. Each value in it stands
/// within at most `depth` arrays and objects. The inner error says where the text is damaged, and
/// the outer one that memory was refused.
pub fn read_document(alloc: Global, depth: usize, text: &[u8]) -> WholeResult<Value, Damage>
    ensures document { IfOk result (λ answer. IfOk answer (IsDocument depth text.now)) }
    ensures only { IfOk result (λ answer. IfOk answer (IsOnlyDocument depth text.now)) }
    ensures damaged { IfOk result (λ answer. IfErr answer (IsDamage depth text.now)) }
{
    match value_at(alloc, text, false, depth)? {
        Found::Whole(value, width) => {
            let offset = width + blank_count(&text[width..]);
            if offset == text.len() {
                return Ok(Ok(value));
            }
            Ok(Err(Damage { offset }))
        }
        Found::Begun => unreachable!(),
        Found::Damaged(offset) => Ok(Err(Damage { offset })),
    }
}

/// The record of a token, for a `ScanReader` over bytes that come in pieces.
///
/// It takes the blanks before the token. It fails at the place that is wrong: where no token
/// begins, at the start of a word or a number that is none, and where a string is damaged, as in
/// [`read_string`](crate::read_string). A number ends where no digit, sign, point or `e` follows,
/// so the record needs one byte more after it.
#[derive(Clone, Copy, Debug, Drop)]
pub struct JsonToken;

impl Record for JsonToken {
    type Output = Token;

    type Error = EmptyError;

    ghost means = { λ _. OneToken };

    ghost errors = { λ _. AnyError };

    ghost ready = { λ _. Unit {0} };

    ghost lawful = { λ _. IsParser-OneToken };

    fn read<'b>(
        &self,
        alloc: Global,
        input: &mut RecordInput<'b>,
    ) -> ModalResult<Token, EmptyError> {
        let bytes = input.peek_finish();
        match token_at(alloc, bytes, input.is_partial()) {
            Err(refused) => Err(Failure::Refused(refused)),
            Ok(Found::Begun) => Err(Failure::Incomplete(Needed::new(1))),
            Ok(Found::Whole(token, width)) => {
                let _ = input.next_slice(width);
                Ok(token)
            }
            Ok(Found::Damaged(width)) => {
                let _ = input.next_slice(width);
                Err(Failure::Cut(EmptyError))
            }
        }
    }
}
