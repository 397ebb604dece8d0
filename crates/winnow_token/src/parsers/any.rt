ghost use Rattle.std.specs.Prelude.{true};
ghost use Rattle.winnow_parser.specs.Errors.{OwnErrors};
ghost use Rattle.winnow_token.specs.OneOf.{IsOneOf, IsParser-IsOneOf};

use std::alloc::Global;
use winnow_error::ParserError;
use winnow_parser::{Failure, ModalResult, Parser};
use winnow_stream::{Needed, StreamIsPartial};

/// A parser of one token, whichever it is; [`any`] makes it.
#[derive(Clone, Copy, Debug)]
pub struct Any;

impl<I: StreamIsPartial, E: ParserError<I>> Parser<I, E> for Any {
    type Output = I::Token;

    ghost means = { λ _. IsOneOf (λ _. true) };

    ghost errors = { λ _. OwnErrors E.from_input_gives E.assert_gives };

    ghost ready = { λ _. Unit {0} };

    ghost lawful = { λ _. IsParser-IsOneOf (λ _. true) };

    #[inline(always)]
    fn parse_next(&self, alloc: Global, input: &mut I) -> ModalResult<I::Token, E> {
        match input.next_token() {
            Some(token) => Ok(token),
            None if input.is_partial() => Err(Failure::Incomplete(Needed::new(1))),
            None => Err(Failure::Backtrack(E::from_input(alloc, input))),
        }
    }
}
