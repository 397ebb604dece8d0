//! `eof`, `empty` and `fail`: the parsers of the end, of nothing and of no value.

ghost use Rattle.winnow_parser.specs.Errors.{OwnErrors};
ghost use Rattle.winnow_combinator.specs.Ending.{IsEof, IsParser-IsEof};

use std::alloc::Global;
use winnow_error::ParserError;
use winnow_parser::{Failure, ModalResult, Parser};
use winnow_stream::{Needed, StreamIsPartial};

/// A parser of the end of the input; [`eof`] makes it.
#[derive(Clone, Copy, Debug)]
pub struct Eof;

impl<I: StreamIsPartial, E: ParserError<I>> Parser<I, E> for Eof
where
    I::Token: Drop,
{
    type Output = I::Slice;

    ghost means = { λ _. IsEof I.is_slice };

    ghost errors = { λ _. OwnErrors E.from_input_gives E.assert_gives };

    ghost ready = { λ _. Unit {0} };

    ghost lawful = { λ _. IsParser-IsEof I.is_slice };

    fn parse_next(&self, alloc: Global, input: &mut I) -> ModalResult<I::Slice, E> {
        match input.peek_token() {
            Some(_) => Err(Failure::Backtrack(E::from_input(alloc, input))),
            None if input.is_partial() => Err(Failure::Incomplete(Needed::new(1))),
            None => Ok(input.next_slice(0)),
        }
    }
}
