ghost use Rattle.std.specs.Prelude.{not};
ghost use Rattle.winnow_parser.specs.Errors.{OwnErrors};
ghost use Rattle.winnow_token.specs.OneOf.{IsOneOf, IsParser-IsOneOf};

use std::alloc::Global;
use winnow_error::ParserError;
use winnow_parser::{Failure, ModalResult, Parser};
use winnow_sets::FixedSet;
use winnow_stream::{Needed, StreamIsPartial};

/// A parser of one token that a set does not hold; [`none_of`] makes it.
#[derive(Clone, Copy, Debug, Drop)]
pub struct NoneOf<C> {
    pub(crate) set: C,
}

impl<I: StreamIsPartial, E: ParserError<I>, C: FixedSet<I::Token>> Parser<I, E> for NoneOf<C>
where
    I::Token: Copy,
{
    type Output = I::Token;

    ghost means = { λ p. IsOneOf (λ token. not (C.holds p.set token)) };

    ghost errors = { λ _. OwnErrors E.from_input_gives E.assert_gives };

    ghost ready = { λ p. C.askable p.set };

    ghost lawful = { λ p. IsParser-IsOneOf (λ token. not (C.holds p.set token)) };

    #[inline(always)]
    fn parse_next(&self, alloc: Global, input: &mut I) -> ModalResult<I::Token, E> {
        match input.peek_token() {
            Some(token) => {
                if self.set.holds_token(token) {
                    return Err(Failure::Backtrack(E::from_input(alloc, input)));
                }
                let _ = input.next_token();
                Ok(token)
            }
            None if input.is_partial() => Err(Failure::Incomplete(Needed::new(1))),
            None => Err(Failure::Backtrack(E::from_input(alloc, input))),
        }
    }
}
