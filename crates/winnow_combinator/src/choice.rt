//! `Choice` of two and three parsers: the part of `alt` that calls them and joins their errors.

ghost use Rattle.winnow_parser.specs.Answer.{ahead};
ghost use Rattle.winnow_parser.specs.Meanings.{IsAlt2};
ghost use Rattle.winnow_parser.specs.Errors.{AltErrors2};
ghost use Rattle.winnow_parser.specs.Parts.{IsParser-IsAlt2};
ghost use Rattle.winnow_combinator.specs.AltErrors.{AltErrors3};
ghost use Rattle.winnow_combinator.specs.Alt.{IsAlt3, IsParser-IsAlt3};

use std::alloc::Global;
use winnow_error::ParserError;
use winnow_parser::{Failure, ModalResult, Parser};
use winnow_stream::StreamIsPartial;

// The alternatives of an `alt`, which appends to the error of all. Where all backtrack, their
// errors are joined by `or`, from the left.
#[derive(Clone, Copy)]
pub(crate) struct Choice<L> {
    pub(crate) list: L,
}

impl<
    I: StreamIsPartial,
    E: ParserError<I>,
    A: Parser<I, E>,
    B: Parser<I, E, Output = A::Output>,
> Parser<I, E> for Choice<(A, B)> {
    type Output = A::Output;

    ghost means = { λ p. IsAlt2 E.or_refusable (A.means p.list.0) (B.means p.list.1) };

    ghost errors = { λ p. AltErrors2 (ahead I.location I.remaining) E.or_gives (A.means p.list.0)
        (A.errors p.list.0) (B.errors p.list.1) };

    ghost ready = { λ p. A.ready p.list.0 × B.ready p.list.1 };

    ghost lawful = { λ p. IsParser-IsAlt2 E.or_refusable (A.means p.list.0) (B.means p.list.1)
        (A.lawful p.list.0) (B.lawful p.list.1) };

    fn parse_next(&self, alloc: Global, input: &mut I) -> ModalResult<A::Output, E> {
        let start = input.checkpoint();
        match self.list.0.parse_next(alloc, input) {
            Err(Failure::Backtrack(error)) => {
                input.reset(&start);
                match self.list.1.parse_next(alloc, input) {
                    Err(Failure::Backtrack(other)) => match error.or(alloc, other) {
                        Ok(joined) => Err(Failure::Backtrack(joined)),
                        Err(refused) => Err(Failure::Refused(refused)),
                    },
                    other => other,
                }
            }
            other => other,
        }
    }
}

// Tries three parsers in turn.
impl<
    I: StreamIsPartial,
    E: ParserError<I>,
    A: Parser<I, E>,
    B: Parser<I, E, Output = A::Output>,
    C: Parser<I, E, Output = A::Output>,
> Parser<I, E> for Choice<(A, B, C)> {
    type Output = A::Output;

    ghost means = { λ p. IsAlt3 E.or_refusable (A.means p.list.0) (B.means p.list.1)
        (C.means p.list.2) };

    ghost errors = { λ p. AltErrors3 (ahead I.location I.remaining) E.or_refusable E.or_gives
        (A.means p.list.0) (A.errors p.list.0) (B.means p.list.1) (B.errors p.list.1)
        (C.errors p.list.2) };

    ghost ready = { λ p. A.ready p.list.0 × B.ready p.list.1 × C.ready p.list.2 };

    ghost lawful = { λ p. IsParser-IsAlt3 E.or_refusable (A.lawful p.list.0) (B.lawful p.list.1)
        (C.lawful p.list.2) };

    fn parse_next(&self, alloc: Global, input: &mut I) -> ModalResult<A::Output, E> {
        let first = Choice {
            list: (&self.list.0, &self.list.1),
        };
        Choice {
            list: (first, &self.list.2),
        }
        .parse_next(alloc, input)
    }
}
