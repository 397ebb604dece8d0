//! The parser of a string.

ghost use Rattle.std.specs.Prelude.{◌≡◌, ◌<◌, length, IfOk};
ghost use Rattle.std.specs.String.{string_bytes};
ghost use Rattle.winnow_parser.specs.Outcome.{Moves};
ghost use Rattle.winnow_parser.specs.Answer.{ahead};
ghost use Rattle.winnow_stream.specs.SliceBytes.{SlicesHaveBytes};
ghost use Rattle.format_lemmas.specs.Bytes.{bytes_of};
ghost use Rattle.format_json_scalars.specs.Needing.{NeedsOneByte};
ghost use Rattle.format_json_scalars.specs.Numbers.{Tells};
ghost use Rattle.format_json_scalars.specs.StringAnswers.{IsStringAnswer, GivesEachString};
ghost use Rattle.format_json_scalars.specs.StringAnswers.{BeginsChar};
ghost use Rattle.format_json_scalars.specs.Escapes.{MayBeChar};
ghost use Rattle.format_json_scalars.specs.Steps.{IsStep, IsReading};
ghost use Rattle.format_json_scalars.specs.Tails.{IsCharAt};

use crate::characters::{Step, append_plain, ascii_front, is_cut_text, plain_at};
use crate::escapes::{Escape, escape_at};
use std::alloc::{AllocError, Global};
use winnow_error::ParserError;
use winnow_parser::{Failure, ModalResult};
use winnow_stream::{AsBytes, Needed, Stream, StreamIsPartial};

/// What some bytes are as a string.
#[derive(Debug, Drop)]
pub enum Reading {
    /// There are no bytes
    Nothing,
    /// The first byte is no quote
    Missing,
    /// A string of this value, and the number of its bytes
    Whole(String, usize),
    /// The number of bytes of a string that more bytes can make whole
    Begun(usize),
    /// The number of bytes of a string before the place where it is damaged
    Damaged(usize),
}

// Appends the character with which the bytes of a string after its opening quote begin.
fn append_next(value: &mut String, bytes: &[u8]) -> Result<Step, AllocError>
    requires { 0 < length bytes.now }
    ensures { IfOk result
        (λ step. IsStep bytes.now (string_bytes value.old) step (string_bytes value.new)) }
{
    let first = bytes[0];
    if first == b'"' {
        return Ok(Step::Ended);
    }
    if first != b'\\' {
        return append_plain(value, bytes);
    }
    match escape_at(&bytes[1..]) {
        Escape::Whole(character, width) => {
            value.push(character)?;
            Ok(Step::Taken(width))
        }
        Escape::Begun => Ok(Step::Begun),
        Escape::Wrong => Ok(Step::Wrong),
    }
}

/// Returns what stands at the front of the bytes of a string after its opening quote.
pub(crate) fn char_at(bytes: &[u8]) -> Step
    requires { 0 < length bytes.now }
    ensures { IsCharAt bytes.now result }
{
    if bytes[0] != b'\\' {
        return plain_at(bytes);
    }
    match escape_at(&bytes[1..]) {
        Escape::Whole(_, width) => Step::Taken(width),
        Escape::Begun => Step::Begun,
        Escape::Wrong => Step::Wrong,
    }
}

/// Reads a string with which the bytes begin.
// Inlined: each caller takes the answer apart at once, and as a call it goes through memory.
#[inline(always)]
pub fn read_bytes(alloc: Global, bytes: &[u8]) -> Result<Reading, AllocError>
    ensures { IfOk result (IsReading bytes.now) }
{
    if bytes.is_empty() {
        return Ok(Reading::Nothing);
    }
    if bytes[0] != b'"' {
        return Ok(Reading::Missing);
    }
    let front = ascii_front(&bytes[1..]);
    let mut value = String::from_str(alloc, front)?;
    let mut at = 1 + front.len();
    while at < bytes.len() {
        match append_next(&mut value, &bytes[at..])? {
            Step::Taken(width) => at += width,
            Step::Ended => return Ok(Reading::Whole(value, at + 1)),
            Step::Begun => return Ok(Reading::Begun(at)),
            Step::Wrong => return Ok(Reading::Damaged(at)),
        }
    }
    Ok(Reading::Begun(at))
}

/// Returns whether more bytes make the bytes, with which no character begins, the spelling of one.
pub fn may_be_char(bytes: &[u8]) -> bool
    requires { ¬ (BeginsChar bytes.now) }
    ensures { Tells result (MayBeChar bytes.now) }
{
    if bytes.is_empty() {
        return true;
    }
    if bytes[0] != b'\\' {
        return is_cut_text(bytes);
    }
    match escape_at(&bytes[1..]) {
        Escape::Begun => true,
        Escape::Whole(_, _) => unreachable!(),
        Escape::Wrong => false,
    }
}

/// Reads a string from a stream of bytes, and moves the stream past its closing quote.
///
/// The parser backtracks if the input starts with no quote, and does not move. After the quote it
/// cuts at the place that is wrong: at the backslash of an escape that is none, at a control
/// character, at the first byte that is no UTF-8, and at the end of an input that ends before the
/// closing quote. One byte more is needed if more may follow and can make a string of the input.
pub fn read_string<I: StreamIsPartial + Stream<Token = u8>, E: ParserError<I>>(
    alloc: Global,
    input: &mut I,
) -> ModalResult<String, E>
where
    I::Slice: AsBytes + Drop,
    requires valid { I.valid input.old }
    requires bytes { SlicesHaveBytes I.is_slice I.Slice.bytes }
    ensures answer { IsStringAnswer (I.expects_more input.old) (bytes_of (I.remaining input.old))
        result (bytes_of (I.remaining input.new)) }
    ensures complete { GivesEachString (bytes_of (I.remaining input.old)) result
        (bytes_of (I.remaining input.new)) }
    ensures need { NeedsOneByte result }
    ensures onward { Moves (ahead I.location I.remaining input.old)
        (ahead I.location I.remaining input.new) }
    ensures valid { I.valid input.new }
    ensures kept { I.keeps input.old input.new }
{
    let ahead = input.peek_finish();
    match read_bytes(alloc, ahead.as_bytes()) {
        Err(refused) => Err(Failure::Refused(refused)),
        Ok(Reading::Nothing) if input.is_partial() => Err(Failure::Incomplete(Needed::new(1))),
        Ok(Reading::Nothing) => Err(Failure::Backtrack(E::from_input(alloc, input))),
        Ok(Reading::Missing) => Err(Failure::Backtrack(E::from_input(alloc, input))),
        Ok(Reading::Whole(value, width)) => {
            let _ = input.next_slice(width);
            Ok(value)
        }
        Ok(Reading::Begun(_)) if input.is_partial() => Err(Failure::Incomplete(Needed::new(1))),
        Ok(Reading::Begun(width)) => {
            let _ = input.next_slice(width);
            Err(Failure::Cut(E::from_input(alloc, input)))
        }
        Ok(Reading::Damaged(width)) => {
            let _ = input.next_slice(width);
            Err(Failure::Cut(E::from_input(alloc, input)))
        }
    }
}
