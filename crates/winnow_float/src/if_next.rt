//! `IfNext`, which chooses one of two parsers by the next token.

ghost use Rattle.winnow_float.specs.IfNext.{IsIfNext, IfNextErrors, IsParser-IsIfNext};

use std::alloc::Global;
use winnow_error::ParserError;
use winnow_parser::{Failure, ModalResult, Parser};
use winnow_sets::FixedSet;
use winnow_stream::{Needed, StreamIsPartial};

// A parser that calls the first one if the next token is in the set, and else the second, of whose
// values nothing is kept.
#[derive(Clone, Copy)]
pub(crate) struct IfNext<C, P, Q> {
    pub(crate) set: C,
    pub(crate) first: P,
    pub(crate) second: Q,
}

impl<
    I: StreamIsPartial,
    E: ParserError<I>,
    C: FixedSet<I::Token>,
    P: Parser<I, E>,
    Q: Parser<I, E>,
> Parser<I, E> for IfNext<C, P, Q>
where
    I::Token: Copy,
    P::Output: Drop,
    Q::Output: Drop,
{
    type Output = ();

    ghost means = { λ p. IsIfNext (C.holds p.set) (P.means p.first) (Q.means p.second) };

    ghost errors = { λ p. IfNextErrors (P.errors p.first) (Q.errors p.second) };

    ghost ready = { λ p. C.askable p.set × P.ready p.first × Q.ready p.second };

    ghost lawful = { λ p.
        IsParser-IsIfNext (C.holds p.set) (P.lawful p.first) (Q.lawful p.second) };

    fn parse_next(&self, alloc: Global, input: &mut I) -> ModalResult<(), E> {
        match input.peek_token() {
            None if input.is_partial() => Err(Failure::Incomplete(Needed::new(1))),
            Some(token) if self.set.holds_token(token) => {
                match self.first.parse_next(alloc, input) {
                    Ok(_) => Ok(()),
                    Err(failure) => Err(failure),
                }
            }
            _ => match self.second.parse_next(alloc, input) {
                Ok(_) => Ok(()),
                Err(failure) => Err(failure),
            },
        }
    }
}
