//! The parsers of the lines of a reply: texts, integers and lengths.

ghost use Rattle.std.specs.Prelude.{◌≡◌, ◌<◌, ◌^◌, Some};
ghost use Rattle.winnow_parser.specs.Outcome.{Moves};
ghost use Rattle.winnow_parser.specs.Answer.{ahead, outcome};
ghost use Rattle.winnow_count.specs.CountRange.{HasCounts};
ghost use Rattle.winnow_count.specs.Reading.{IsSomeExactly};
ghost use Rattle.format_resp.specs.Language.{IsInteger, IsLength};
ghost use Rattle.format_resp.specs.Meanings.{Text, Number, Length, Bytes, IsLine};

use crate::numbers::{integer_in, length_in};
use std::alloc::Global;
use winnow_combinator::{Terminated, cut_err, terminated};
use winnow_error::ParserError;
use winnow_parser::{Failure, ModalResult, Parser};
use winnow_sets::AsChar;
use winnow_stream::{AsBytes, StreamIsPartial};
use winnow_token::{OneOf, TakeTill, one_of, take, take_till};

// No number of 64 bits has more digits, with its sign.
const MOST_DIGITS: usize = 21;

// The parser of the text of a line, and of its end.
type Line = Terminated<TakeTill<(char, char)>, (OneOf<char>, OneOf<char>)>;

// Returns the parser of a text of at most `longest` bytes and the end of its line.
fn line(longest: usize) -> Line
    ensures { IsLine longest result }
{
    terminated(
        take_till(0..=longest, ('\r', '\n')),
        (one_of('\r'), one_of('\n')),
    )
}

/// Reads a line with a text of at most `longest` bytes. It cuts where there is none.
pub(crate) fn read_text<I: StreamIsPartial, E: ParserError<I>>(
    alloc: Global,
    input: &mut I,
    longest: usize,
) -> ModalResult<Vec<u8>, E>
where
    I::Token: AsChar + Copy,
    I::Slice: AsBytes + Drop,
    requires { I.valid input.old }
    ensures means { Text I.Token.code I.counts_shortage I.is_slice I.Slice.bytes longest
        (I.expects_more input.old)
        (ahead I.location I.remaining input.old)
        (outcome result (ahead I.location I.remaining input.new)) }
    ensures onward { Moves (ahead I.location I.remaining input.old)
        (ahead I.location I.remaining input.new) }
    ensures valid { I.valid input.new }
    ensures kept { I.keeps input.old input.new }
{
    match cut_err(line(longest)).parse_next(alloc, input) {
        Ok(slice) => match Vec::from_slice(alloc, slice.as_bytes()) {
            Ok(text) => Ok(text),
            Err(refused) => Err(Failure::Refused(refused)),
        },
        Err(failure) => Err(failure),
    }
}

/// Reads a line with an integer. It cuts at the start of the line where its text is no integer, and
/// where the end of the line is missing: after 21 bytes, at a newline without a carriage return, or
/// after a carriage return without a newline.
pub(crate) fn read_integer<I: StreamIsPartial, E: ParserError<I>>(
    alloc: Global,
    input: &mut I,
) -> ModalResult<i64, E>
where
    I::Token: AsChar + Copy,
    I::Slice: AsBytes + Drop,
    requires { I.valid input.old }
    ensures means { Number I.Token.code
        I.counts_shortage I.is_slice I.Slice.bytes (I.expects_more input.old)
        (ahead I.location I.remaining input.old)
        (outcome result (ahead I.location I.remaining input.new)) }
    ensures onward { Moves (ahead I.location I.remaining input.old)
        (ahead I.location I.remaining input.new) }
    ensures valid { I.valid input.new }
    ensures kept { I.keeps input.old input.new }
{
    let number = line(MOST_DIGITS).verify_map(
        |slice: I::Slice| -> Option<i64>
            ensures { IsSomeExactly (IsInteger (I.Slice.bytes slice)) result }
        { integer_in(slice.as_bytes()) },
    );
    cut_err(number).parse_next(alloc, input)
}

/// Reads a line with a length of at most `greatest`, or with `-1`. It cuts at the start of the line
/// where its text is neither, and where the end of the line is missing, as for an integer.
// Inlined: most replies begin with a length, which is read in few steps.
#[inline(always)]
pub(crate) fn read_length<I: StreamIsPartial, E: ParserError<I>>(
    alloc: Global,
    input: &mut I,
    greatest: usize,
) -> ModalResult<Option<usize>, E>
where
    I::Token: AsChar + Copy,
    I::Slice: AsBytes + Drop,
    requires { I.valid input.old }
    ensures means { Length I.Token.code I.counts_shortage I.is_slice I.Slice.bytes greatest
        (I.expects_more input.old)
        (ahead I.location I.remaining input.old)
        (outcome result (ahead I.location I.remaining input.new)) }
    ensures onward { Moves (ahead I.location I.remaining input.old)
        (ahead I.location I.remaining input.new) }
    ensures valid { I.valid input.new }
    ensures kept { I.keeps input.old input.new }
{
    let length = line(MOST_DIGITS).verify_map(
        |slice: I::Slice| -> Option<Option<usize>>
            ensures { IsSomeExactly (IsLength greatest (I.Slice.bytes slice)) result }
        { length_in(slice.as_bytes(), greatest) },
    );
    match cut_err(length).parse_next(alloc, input) {
        Ok(length) => Ok(length),
        Err(failure) => Err(failure),
    }
}

/// Reads that many bytes, and the end of a line. It cuts where they are missing.
pub(crate) fn read_bytes<I: StreamIsPartial, E: ParserError<I>>(
    alloc: Global,
    input: &mut I,
    count: usize,
) -> ModalResult<Vec<u8>, E>
where
    I::Token: AsChar + Copy,
    I::Slice: AsBytes + Drop,
    requires { I.valid input.old }
    ensures means { Bytes I.Token.code I.counts_shortage I.is_slice I.Slice.bytes count
        (I.expects_more input.old) (ahead I.location I.remaining input.old)
        (outcome result (ahead I.location I.remaining input.new)) }
    ensures onward { Moves (ahead I.location I.remaining input.old)
        (ahead I.location I.remaining input.new) }
    ensures valid { I.valid input.new }
    ensures kept { I.keeps input.old input.new }
{
    let held = terminated(take(count), (one_of('\r'), one_of('\n')));
    match cut_err(held).parse_next(alloc, input) {
        Ok(slice) => match Vec::from_slice(alloc, slice.as_bytes()) {
            Ok(bytes) => Ok(bytes),
            Err(refused) => Err(Failure::Refused(refused)),
        },
        Err(failure) => Err(failure),
    }
}
