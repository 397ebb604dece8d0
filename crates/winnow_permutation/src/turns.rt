//! `Turns`, which asks the first of two parsers that does not backtrack, and says which it was.

ghost use Rattle.winnow_parser.specs.Answer.{ahead};
ghost use Rattle.winnow_parser.specs.Errors.{AltErrors2};
ghost use Rattle.winnow_permutation.specs.AnyOrder.{TakesTurn, IsParser-TakesTurn};

use std::alloc::Global;
use winnow_error::ParserError;
use winnow_parser::{Failure, ModalResult, Parser};
use winnow_stream::StreamIsPartial;

// The value of one of two parsers.
#[derive(Drop)]
pub(crate) enum Turn<X, Y> {
    This(X),
    Other(Y),
}

// A parser that asks the other one where this one backtracks.
#[derive(Clone, Copy)]
pub(crate) struct Turns<A, B> {
    pub(crate) this: A,
    pub(crate) other: B,
}

impl<I: StreamIsPartial, E: ParserError<I>, A: Parser<I, E>, B: Parser<I, E>> Parser<I, E>
    for Turns<A, B> {
    type Output = Turn<A::Output, B::Output>;

    ghost means = { λ p. TakesTurn E.or_refusable (A.means p.this) (B.means p.other) };

    ghost errors = { λ p. AltErrors2 (ahead I.location I.remaining) E.or_gives (A.means p.this)
        (A.errors p.this) (B.errors p.other) };

    ghost ready = { λ p. A.ready p.this × B.ready p.other };

    ghost lawful = { λ p.
        IsParser-TakesTurn E.or_refusable (A.lawful p.this) (B.lawful p.other) };

    fn parse_next(
        &self,
        alloc: Global,
        input: &mut I,
    ) -> ModalResult<Turn<A::Output, B::Output>, E> {
        let start = input.checkpoint();
        match self.this.parse_next(alloc, input) {
            Ok(value) => Ok(Turn::This(value)),
            Err(Failure::Backtrack(error)) => {
                input.reset(&start);
                match self.other.parse_next(alloc, input) {
                    Ok(value) => Ok(Turn::Other(value)),
                    Err(Failure::Backtrack(other)) => match error.or(alloc, other) {
                        Ok(joined) => Err(Failure::Backtrack(joined)),
                        Err(refused) => Err(Failure::Refused(refused)),
                    },
                    Err(failure) => Err(failure),
                }
            }
            Err(failure) => Err(failure),
        }
    }
}
