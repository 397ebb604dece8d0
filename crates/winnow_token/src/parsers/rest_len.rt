ghost use Rattle.winnow_parser.specs.Errors.{NoError};
ghost use Rattle.winnow_token.specs.Rest.{IsRestLen, IsParser-IsRestLen};

use std::alloc::Global;
use winnow_parser::{Failure, ModalResult, Parser};
use winnow_stream::{Needed, StreamIsPartial};

/// A parser of the width of all that remains; [`rest_len`] makes it.
#[derive(Clone, Copy, Debug)]
pub struct RestLen;

impl<I: StreamIsPartial, E> Parser<I, E> for RestLen {
    type Output = usize;

    ghost means = { λ _. IsRestLen };

    ghost errors = { λ _. NoError };

    ghost ready = { λ _. Unit {0} };

    ghost lawful = { λ _. IsParser-IsRestLen };

    fn parse_next(&self, _alloc: Global, input: &mut I) -> ModalResult<usize, E> {
        if input.is_partial() {
            return Err(Failure::Incomplete(Needed::Unknown));
        }
        Ok(input.eof_offset())
    }
}
