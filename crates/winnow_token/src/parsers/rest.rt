//! Parsers of the remaining input: its slice, `rest`, and its width, `rest_len`.

ghost use Rattle.winnow_parser.specs.Errors.{NoError};
ghost use Rattle.winnow_token.specs.Rest.{IsRest, IsParser-IsRest};

use std::alloc::Global;
use winnow_parser::{Failure, ModalResult, Parser};
use winnow_stream::{Needed, StreamIsPartial};

/// A parser of all that remains; [`rest`] makes it.
#[derive(Clone, Copy, Debug)]
pub struct Rest;

impl<I: StreamIsPartial, E> Parser<I, E> for Rest {
    type Output = I::Slice;

    ghost means = { λ _. IsRest I.is_slice };

    ghost errors = { λ _. NoError };

    ghost ready = { λ _. Unit {0} };

    ghost lawful = { λ _. IsParser-IsRest I.is_slice };

    fn parse_next(&self, _alloc: Global, input: &mut I) -> ModalResult<I::Slice, E> {
        if input.is_partial() {
            return Err(Failure::Incomplete(Needed::Unknown));
        }
        Ok(input.finish())
    }
}
