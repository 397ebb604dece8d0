//! `Number`: the bytes of a number, and the integer that they write.

ghost use Rattle.std.specs.Prelude.{◌≡◌, ◌≤◌, length, take, drop, IfOk};
ghost use Rattle.std.specs.Int.{w64};
ghost use Rattle.winnow_parser.specs.Outcome.{Moves};
ghost use Rattle.winnow_parser.specs.Answer.{ahead, outcome};
ghost use Rattle.winnow_stream.specs.SliceBytes.{SlicesHaveBytes};
ghost use Rattle.winnow_count.specs.Reading.{IsSomeExactly, ReadsSigned};
ghost use Rattle.format_lemmas.specs.Bytes.{bytes_of, Each, Starts};
ghost use Rattle.format_json_scalars.specs.Numbers.{IsNumber, is_number_byte, Tells};
ghost use Rattle.format_json_scalars.specs.Meanings.{Keeps, IsNumberOf, IsWritten, NumberRun};
ghost use Rattle.format_json_scalars.specs.Needing.{NeedsOneByte};
ghost use Rattle.format_json_scalars.specs.NumberAnswers.{IsNumberAnswer, IsLongest};
ghost use Rattle.format_json_scalars.specs.NumberAnswers.{GivesEachNumber};

use crate::parts::is_number;
use std::alloc::{AllocError, Global};
use winnow_count::ParseSlice;
use winnow_error::ParserError;
use winnow_parser::{Failure, ModalResult, Parser};
use winnow_sets::AsChar;
use winnow_stream::{AsBytes, Stream, StreamIsPartial};
use winnow_token::take_while;

/// A number.
#[derive(Debug, Drop)]
pub struct Number {
    /// The number as it is written, in ASCII
    pub text: Vec<u8>,
    /// The value, if the number has neither a fraction nor an exponent and an `i64` has it
    pub integer: Option<i64>,
}

// Returns the integer that the text writes, if an `i64` has it.
fn integer_in(text: &[u8]) -> Option<i64>
    ensures { IsSomeExactly (ReadsSigned w64 text.now) result }
{
    text.parse_slice()
}

/// Returns whether the text is a number, and the integer the one that the text writes.
pub fn is_of_text(number: &Number) -> bool
    ensures { Tells result (IsWritten number.now) }
{
    is_number(&number.text) && number.integer == integer_in(&number.text)
}

/// Returns the number with this text.
pub fn number_of(alloc: Global, text: &[u8]) -> Result<Number, AllocError>
    ensures { IfOk result (IsNumberOf text.now) }
{
    let integer = integer_in(text);
    let text = Vec::from_slice(alloc, text)?;
    Ok(Number { text, integer })
}

// Returns the slice, if its bytes are a number.
fn kept<S: AsBytes + Drop>(slice: S) -> Option<S>
    ensures { Keeps (λ s. IsNumber (S.bytes s)) slice result }
{
    if is_number(slice.as_bytes()) {
        return Some(slice);
    }
    None
}

/// Returns whether a number may have the byte.
pub fn is_number_byte(byte: u8) -> bool
    ensures { result ≡ is_number_byte byte }
{
    matches!(byte, b'0'..=b'9' | b'-' | b'+' | b'.' | b'e' | b'E')
}

/// Returns the number of bytes of numbers with which the bytes begin.
pub fn number_count(bytes: &[u8]) -> usize
    ensures within { result ≤ length bytes.now }
    ensures run { Each is_number_byte (take result bytes.now) }
    ensures ends { ¬ (Starts is_number_byte (drop result bytes.now)) }
{
    for (index, byte) in bytes.iter().enumerate() {
        if !is_number_byte(*byte) {
            return index;
        }
    }
    bytes.len()
}

/// Reads a number. It backtracks if the input starts with none, and does not move.
pub(crate) fn parse_number<I: StreamIsPartial, E: ParserError<I>>(
    alloc: Global,
    input: &mut I,
) -> ModalResult<Number, E>
where
    I::Token: AsChar + Copy,
    I::Slice: AsBytes + Drop,
    requires { I.valid input.old }
    ensures means { NumberRun I.Token.code I.is_slice I.Slice.bytes
        (I.expects_more input.old) (ahead I.location I.remaining input.old)
        (outcome result (ahead I.location I.remaining input.new)) }
    ensures onward { Moves (ahead I.location I.remaining input.old)
        (ahead I.location I.remaining input.new) }
    ensures valid { I.valid input.new }
    ensures kept { I.keeps input.old input.new }
{
    let run = take_while(1.., ('0'..='9', '-', '+', '.', 'e', 'E')).verify_map(
        |slice: I::Slice| -> Option<I::Slice>
            ensures { Keeps (λ s. IsNumber (I.Slice.bytes s)) slice result }
        { kept(slice) },
    );
    match run.parse_next(alloc, input) {
        Ok(slice) => match number_of(alloc, slice.as_bytes()) {
            Ok(number) => Ok(number),
            Err(refused) => Err(Failure::Refused(refused)),
        },
        Err(failure) => Err(failure),
    }
}

/// Reads a number from a stream of bytes, and moves the stream past its end.
///
/// The number ends before the first byte that is no digit, sign, point or `e`. If the bytes before
/// it are no number, as in `01` or `1-2`, the parser backtracks and does not move. One byte more is
/// needed if more may follow and each byte of the input may be one of a number.
pub fn read_number<I: StreamIsPartial + Stream<Token = u8>, E: ParserError<I>>(
    alloc: Global,
    input: &mut I,
) -> ModalResult<Number, E>
where
    I::Slice: AsBytes + Drop,
    requires valid { I.valid input.old }
    requires bytes { SlicesHaveBytes I.is_slice I.Slice.bytes }
    ensures answer { IsNumberAnswer (I.expects_more input.old) (bytes_of (I.remaining input.old))
        result (bytes_of (I.remaining input.new)) }
    ensures longest { IfOk result (IsLongest (bytes_of (I.remaining input.old))) }
    ensures complete { GivesEachNumber (I.expects_more input.old)
        (bytes_of (I.remaining input.old)) result (bytes_of (I.remaining input.new)) }
    ensures need { NeedsOneByte result }
    ensures onward { Moves (ahead I.location I.remaining input.old)
        (ahead I.location I.remaining input.new) }
    ensures valid { I.valid input.new }
    ensures kept { I.keeps input.old input.new }
{
    parse_number(alloc, input)
}
