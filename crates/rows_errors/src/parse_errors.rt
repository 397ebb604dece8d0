//! The errors of parses that failed at an offset, of bytes with an error that tells nothing and of
//! text with an error at the input, and lines and columns.
use crate::printed::{debugged, printed, quoted};
use rows::{Fault, Word, Words};
use std::alloc::Global;
use std::fmt::{Debug, Display};
use winnow_error::{EmptyError, InputError, ParserError};
use winnow_error_parse::{ParseError, translate_position};
use winnow_stream::{AsBStr, Stream};

// Returns the error of a parse that fails at the offset, which must be one of the input.
fn failed<I: Stream, E: ParserError<I>>(
    alloc: Global,
    mut input: I,
    offset: usize,
) -> Result<ParseError<I, E>, Fault>
where
    I: Drop,
    I::Slice: Drop,
    requires { I.valid input }
{
    let start = input.checkpoint();
    if !input.is_offset(offset) {
        return Err(Fault::NoSuchCall);
    }
    let _ = input.next_slice(offset);
    let inner = E::from_input(alloc, &input);
    Ok(ParseError::new(input, start, inner))
}

// Answers a question about an error.
fn ask<I: AsBStr + Debug + Drop, E: Display + Debug + Drop>(
    alloc: Global,
    question: &str,
    error: ParseError<I, E>,
    other: &str,
) -> Result<String, Fault> {
    let text = match question {
        "offset" => format!(in alloc; "{}", error.offset())?,
        "char_span" => format!(in alloc; "{:?}", error.char_span())?,
        "input" => format!(in alloc; "{:?}", error.input())?,
        "inner" => format!(in alloc; "{:?}", error.inner())?,
        "into_inner" => format!(in alloc; "{:?}", error.into_inner())?,
        "text_with" => quoted(alloc, error.text_with(alloc, other)?.as_str())?,
        "{}" => return printed(alloc, "{}", &error),
        format => return debugged(alloc, format, &error),
    };
    Ok(text)
}

/// Answers a question about the error of a parse, or returns a line and a column.
pub fn answer(alloc: Global, family: &str, question: &str, input: &Words) -> Result<String, Fault> {
    if family == "translate_position" {
        let place = translate_position(input.bytes(0)?, input.number(1)?);
        return Ok(format!(in alloc; "{place:?}")?);
    }
    let (offset, other) = (input.number(1)?, input.text(2).unwrap_or(""));
    match input.word(0)? {
        Word::Bytes(bytes) => {
            let error = failed::<&[u8], EmptyError>(alloc, bytes.as_slice(), offset)?;
            ask(alloc, question, error, other)
        }
        Word::Text(text) => {
            let error = failed::<&str, InputError<&str>>(alloc, text.as_str(), offset)?;
            ask(alloc, question, error, other)
        }
        _ => Err(Fault::NoSuchCall),
    }
}
