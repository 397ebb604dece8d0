//! `alt`, and `Alt` of two and three parsers.

ghost use Rattle.winnow_parser.specs.Answer.{ahead};
ghost use Rattle.winnow_parser.specs.Meanings.{IsAlt2};
ghost use Rattle.winnow_parser.specs.Errors.{AltErrors2};
ghost use Rattle.winnow_parser.specs.Parts.{IsParser-IsAlt2};
ghost use Rattle.winnow_combinator.specs.Appended.{Appending, AppendedErrors, IsParser-Appending};
ghost use Rattle.winnow_combinator.specs.AltErrors.{AltErrors3};
ghost use Rattle.winnow_combinator.specs.Alt.{IsAlt3, IsParser-IsAlt3};

use crate::appended::Appended;
use crate::choice::Choice;
use std::alloc::Global;
use winnow_error::ParserError;
use winnow_parser::{ModalResult, Parser};
use winnow_stream::StreamIsPartial;

/// A parser that tries several parsers in turn; [`alt`] makes it.
#[derive(Clone, Copy, Drop)]
pub struct Alt<L> {
    pub(crate) list: L,
}

impl<
    I: StreamIsPartial,
    E: ParserError<I>,
    A: Parser<I, E>,
    B: Parser<I, E, Output = A::Output>,
> Parser<I, E> for Alt<(A, B)> {
    type Output = A::Output;

    ghost means = { λ p. Appending E.append_refusable (IsAlt2 E.or_refusable (A.means p.list.0)
        (B.means p.list.1)) };

    ghost errors = { λ p. AppendedErrors (ahead I.Checkpoint.location I.remained) E.append_gives
        (AltErrors2 (ahead I.location I.remaining) E.or_gives (A.means p.list.0)
        (A.errors p.list.0) (B.errors p.list.1)) };

    ghost ready = { λ p. A.ready p.list.0 × B.ready p.list.1 };

    ghost lawful = { λ p. IsParser-Appending E.append_refusable (IsParser-IsAlt2 E.or_refusable
        (A.means p.list.0) (B.means p.list.1) (A.lawful p.list.0) (B.lawful p.list.1)) };

    fn parse_next(&self, alloc: Global, input: &mut I) -> ModalResult<A::Output, E> {
        let choice = Choice {
            list: (&self.list.0, &self.list.1),
        };
        Appended { inner: &choice }.parse_next(alloc, input)
    }
}

/// Tries three parsers in turn.
impl<
    I: StreamIsPartial,
    E: ParserError<I>,
    A: Parser<I, E>,
    B: Parser<I, E, Output = A::Output>,
    C: Parser<I, E, Output = A::Output>,
> Parser<I, E> for Alt<(A, B, C)> {
    type Output = A::Output;

    ghost means = { λ p. Appending E.append_refusable (IsAlt3 E.or_refusable (A.means p.list.0)
        (B.means p.list.1) (C.means p.list.2)) };

    ghost errors = { λ p. AppendedErrors (ahead I.Checkpoint.location I.remained) E.append_gives
        (AltErrors3 (ahead I.location I.remaining) E.or_refusable E.or_gives (A.means p.list.0)
        (A.errors p.list.0) (B.means p.list.1) (B.errors p.list.1) (C.errors p.list.2)) };

    ghost ready = { λ p. A.ready p.list.0 × B.ready p.list.1 × C.ready p.list.2 };

    ghost lawful = { λ p. IsParser-Appending E.append_refusable (IsParser-IsAlt3 E.or_refusable
        (A.lawful p.list.0) (B.lawful p.list.1) (C.lawful p.list.2)) };

    fn parse_next(&self, alloc: Global, input: &mut I) -> ModalResult<A::Output, E> {
        let choice = Choice {
            list: (&self.list.0, &self.list.1, &self.list.2),
        };
        Appended { inner: &choice }.parse_next(alloc, input)
    }
}
