//! `Line`: a record that ends with a line feed.

ghost use Rattle.std.specs.Prelude.{◌≡◌};
ghost use Rattle.winnow_parser.specs.Errors.{AnyError};
ghost use Rattle.winnow_scan.specs.Line.{IsLine, OneLine, IsParser-OneLine, HasNoFeed};

use crate::Scan;
use memchr::memchr;
use std::alloc::Global;
use winnow_combinator::{Opt, Terminated, opt, terminated};
use winnow_error::EmptyError;
use winnow_parser::{Failure, ModalResult, Parser};
use winnow_reader::{Record, RecordInput};
use winnow_token::{OneOf, TakeTill, one_of, take_till};

// Returns the parser of the bytes before a line feed, which takes the line feed if one follows.
fn before_feed() -> Terminated<TakeTill<u8>, Opt<OneOf<u8>>>
    ensures { IsLine result }
{
    terminated(take_till(0.., b'\n'), opt(one_of(b'\n')))
}

/// The record of a line: the bytes before a line feed, which ends it and is no part of it, or
/// before the end of the input.
///
/// The lines of an input are those into which std's buffered readers split it at line feeds. A
/// carriage return before the line feed is a byte of the line.
#[derive(Clone, Copy, Debug)]
pub struct Line;

impl Record for Line {
    type Output = Vec<u8>;

    type Error = EmptyError;

    ghost means = { λ _. OneLine };

    ghost errors = { λ _. AnyError };

    ghost ready = { λ _. Unit {0} };

    ghost lawful = { λ _. IsParser-OneLine };

    fn read<'b>(
        &self,
        alloc: Global,
        input: &mut RecordInput<'b>,
    ) -> ModalResult<Vec<u8>, EmptyError> {
        match before_feed().parse_next(alloc, input) {
            Ok(text) => match Vec::from_slice(alloc, text) {
                Ok(line) => Ok(line),
                Err(refused) => Err(Failure::Refused(refused)),
            },
            Err(failure) => Err(failure),
        }
    }
}

/// A line is begun as long as no line feed comes, so there is nothing to keep of its bytes.
impl Scan for Line {
    type State = ();

    ghost scanned = { λ _ bytes _. HasNoFeed bytes };

    fn start(&self) {}

    fn scan(&self, _state: &mut (), more: &[u8]) -> bool {
        memchr(b'\n', more).is_some()
    }
}
