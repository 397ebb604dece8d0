//! The Rust crate's example `ndjson`: values of JSON, one on each line, from bytes that come in
//! pieces.
#![tactic(auto)]

use example_values::{JsonText, JsonValue};
use std::alloc::Global;
use winnow_ascii::{line_ending, space0};
use winnow_combinator::{alt, delimited, eof, opt};
use winnow_error::{AddContext, ParserError};
use winnow_error_context::{ContextError, StrContext};
use winnow_grammar::{PlainTextRecord, Reads, ReadsTextRecord, Text, ask, part, text_record};
use winnow_parser::ModalResult;
use winnow_reader::{TextReader, TextRecordInput, Utf8Record};

// A line of text: a value with blanks around it, or blanks alone.
#[derive(Clone, Copy, Drop)]
struct LineText;

impl<I: Text, E: ParserError<I> + AddContext<I, StrContext>> Reads<I, E> for LineText {
    type Output = Option<JsonValue>;

    fn read(&self, alloc: Global, input: &mut I) -> ModalResult<Option<JsonValue>, E> {
        let end = (space0(), alt((line_ending(), eof())));
        ask(alloc, input, &delimited(space0(), opt(part(JsonText)), end))
    }
}

/// A line: a value of at most a hundred layers with blanks around it, or blanks alone.
#[derive(Clone, Copy, Drop)]
pub struct Line;

impl ReadsTextRecord for Line {
    type Output = Option<JsonValue>;

    type Error = ContextError<StrContext>;

    fn read<'b>(
        &self,
        alloc: Global,
        input: &mut TextRecordInput<'b>,
    ) -> ModalResult<Option<JsonValue>, ContextError<StrContext>> {
        ask(alloc, input, &part(LineText))
    }
}

/// Returns a reader of lines from bytes that are UTF-8, cut anywhere. A damaged line is a failure
/// at its place in the joined input.
pub fn lines(alloc: Global) -> TextReader<PlainTextRecord<Line>> {
    TextReader::new(alloc, Utf8Record::new(text_record(Line)))
}
