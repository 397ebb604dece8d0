//! `Alt` of four to seven parsers.

ghost use Rattle.winnow_parser.specs.Answer.{ahead};
ghost use Rattle.winnow_combinator.specs.Appended.{Appending, AppendedErrors, IsParser-Appending};
ghost use Rattle.winnow_combinator.specs.AltErrors.{AltErrors4, AltErrors5, AltErrors6};
ghost use Rattle.winnow_combinator.specs.AltErrors.{AltErrors7};
ghost use Rattle.winnow_combinator.specs.Alt.{IsAlt4, IsParser-IsAlt4, IsAlt5};
ghost use Rattle.winnow_combinator.specs.Alt.{IsParser-IsAlt5, IsAlt6, IsParser-IsAlt6};
ghost use Rattle.winnow_combinator.specs.Alt.{IsAlt7, IsParser-IsAlt7};

use crate::Alt;
use crate::appended::Appended;
use crate::choice::Choice;
use std::alloc::Global;
use winnow_error::ParserError;
use winnow_parser::{ModalResult, Parser};
use winnow_stream::StreamIsPartial;

/// Tries four parsers in turn.
impl<
    I: StreamIsPartial,
    E: ParserError<I>,
    A: Parser<I, E>,
    B: Parser<I, E, Output = A::Output>,
    C: Parser<I, E, Output = A::Output>,
    D: Parser<I, E, Output = A::Output>,
> Parser<I, E> for Alt<(A, B, C, D)> {
    type Output = A::Output;

    ghost means = { λ p. Appending E.append_refusable (IsAlt4 E.or_refusable (A.means p.list.0)
        (B.means p.list.1) (C.means p.list.2) (D.means p.list.3)) };

    ghost errors = { λ p. AppendedErrors (ahead I.Checkpoint.location I.remained) E.append_gives
        (AltErrors4 (ahead I.location I.remaining) E.or_refusable E.or_gives (A.means p.list.0)
        (A.errors p.list.0) (B.means p.list.1) (B.errors p.list.1) (C.means p.list.2)
        (C.errors p.list.2) (D.errors p.list.3)) };

    ghost ready = { λ p. A.ready p.list.0 × B.ready p.list.1 × C.ready p.list.2
        × D.ready p.list.3 };

    ghost lawful = { λ p. IsParser-Appending E.append_refusable (IsParser-IsAlt4 E.or_refusable
        (A.lawful p.list.0) (B.lawful p.list.1) (C.lawful p.list.2) (D.lawful p.list.3)) };

    fn parse_next(&self, alloc: Global, input: &mut I) -> ModalResult<A::Output, E> {
        let choice = Choice {
            list: (&self.list.0, &self.list.1, &self.list.2, &self.list.3),
        };
        Appended { inner: &choice }.parse_next(alloc, input)
    }
}

/// Tries five parsers in turn.
impl<
    I: StreamIsPartial,
    E: ParserError<I>,
    A: Parser<I, E>,
    B: Parser<I, E, Output = A::Output>,
    C: Parser<I, E, Output = A::Output>,
    D: Parser<I, E, Output = A::Output>,
    F: Parser<I, E, Output = A::Output>,
> Parser<I, E> for Alt<(A, B, C, D, F)> {
    type Output = A::Output;

    ghost means = { λ p. Appending E.append_refusable (IsAlt5 E.or_refusable (A.means p.list.0)
        (B.means p.list.1) (C.means p.list.2) (D.means p.list.3) (F.means p.list.4)) };

    ghost errors = { λ p. AppendedErrors (ahead I.Checkpoint.location I.remained) E.append_gives
        (AltErrors5 (ahead I.location I.remaining) E.or_refusable E.or_gives (A.means p.list.0)
        (A.errors p.list.0) (B.means p.list.1) (B.errors p.list.1) (C.means p.list.2)
        (C.errors p.list.2) (D.means p.list.3) (D.errors p.list.3) (F.errors p.list.4)) };

    ghost ready = { λ p. A.ready p.list.0 × B.ready p.list.1 × C.ready p.list.2 × D.ready p.list.3
        × F.ready p.list.4 };

    ghost lawful = { λ p. IsParser-Appending E.append_refusable (IsParser-IsAlt5 E.or_refusable
        (A.lawful p.list.0) (B.lawful p.list.1) (C.lawful p.list.2) (D.lawful p.list.3)
        (F.lawful p.list.4)) };

    fn parse_next(&self, alloc: Global, input: &mut I) -> ModalResult<A::Output, E> {
        let choice = Choice {
            list: (
                &self.list.0,
                &self.list.1,
                &self.list.2,
                &self.list.3,
                &self.list.4,
            ),
        };
        Appended { inner: &choice }.parse_next(alloc, input)
    }
}

/// Tries six parsers in turn.
impl<
    I: StreamIsPartial,
    E: ParserError<I>,
    A: Parser<I, E>,
    B: Parser<I, E, Output = A::Output>,
    C: Parser<I, E, Output = A::Output>,
    D: Parser<I, E, Output = A::Output>,
    F: Parser<I, E, Output = A::Output>,
    G: Parser<I, E, Output = A::Output>,
> Parser<I, E> for Alt<(A, B, C, D, F, G)> {
    type Output = A::Output;

    ghost means = { λ p. Appending E.append_refusable (IsAlt6 E.or_refusable (A.means p.list.0)
        (B.means p.list.1) (C.means p.list.2) (D.means p.list.3) (F.means p.list.4)
        (G.means p.list.5)) };

    ghost errors = { λ p. AppendedErrors (ahead I.Checkpoint.location I.remained) E.append_gives
        (AltErrors6 (ahead I.location I.remaining) E.or_refusable E.or_gives (A.means p.list.0)
        (A.errors p.list.0) (B.means p.list.1) (B.errors p.list.1) (C.means p.list.2)
        (C.errors p.list.2) (D.means p.list.3) (D.errors p.list.3) (F.means p.list.4)
        (F.errors p.list.4) (G.errors p.list.5)) };

    ghost ready = { λ p. A.ready p.list.0 × B.ready p.list.1 × C.ready p.list.2 × D.ready p.list.3
        × F.ready p.list.4 × G.ready p.list.5 };

    ghost lawful = { λ p. IsParser-Appending E.append_refusable (IsParser-IsAlt6 E.or_refusable
        (A.lawful p.list.0) (B.lawful p.list.1) (C.lawful p.list.2) (D.lawful p.list.3)
        (F.lawful p.list.4) (G.lawful p.list.5)) };

    fn parse_next(&self, alloc: Global, input: &mut I) -> ModalResult<A::Output, E> {
        let choice = Choice {
            list: (
                &self.list.0,
                &self.list.1,
                &self.list.2,
                &self.list.3,
                &self.list.4,
                &self.list.5,
            ),
        };
        Appended { inner: &choice }.parse_next(alloc, input)
    }
}

/// Tries seven parsers in turn.
impl<
    I: StreamIsPartial,
    E: ParserError<I>,
    A: Parser<I, E>,
    B: Parser<I, E, Output = A::Output>,
    C: Parser<I, E, Output = A::Output>,
    D: Parser<I, E, Output = A::Output>,
    F: Parser<I, E, Output = A::Output>,
    G: Parser<I, E, Output = A::Output>,
    H: Parser<I, E, Output = A::Output>,
> Parser<I, E> for Alt<(A, B, C, D, F, G, H)> {
    type Output = A::Output;

    ghost means = { λ p. Appending E.append_refusable (IsAlt7 E.or_refusable (A.means p.list.0)
        (B.means p.list.1) (C.means p.list.2) (D.means p.list.3) (F.means p.list.4)
        (G.means p.list.5) (H.means p.list.6)) };

    ghost errors = { λ p. AppendedErrors (ahead I.Checkpoint.location I.remained) E.append_gives
        (AltErrors7 (ahead I.location I.remaining) E.or_refusable E.or_gives (A.means p.list.0)
        (A.errors p.list.0) (B.means p.list.1) (B.errors p.list.1) (C.means p.list.2)
        (C.errors p.list.2) (D.means p.list.3) (D.errors p.list.3) (F.means p.list.4)
        (F.errors p.list.4) (G.means p.list.5) (G.errors p.list.5) (H.errors p.list.6)) };

    ghost ready = { λ p. A.ready p.list.0 × B.ready p.list.1 × C.ready p.list.2 × D.ready p.list.3
        × F.ready p.list.4 × G.ready p.list.5 × H.ready p.list.6 };

    ghost lawful = { λ p. IsParser-Appending E.append_refusable (IsParser-IsAlt7 E.or_refusable
        (A.lawful p.list.0) (B.lawful p.list.1) (C.lawful p.list.2) (D.lawful p.list.3)
        (F.lawful p.list.4) (G.lawful p.list.5) (H.lawful p.list.6)) };

    fn parse_next(&self, alloc: Global, input: &mut I) -> ModalResult<A::Output, E> {
        let choice = Choice {
            list: (
                &self.list.0,
                &self.list.1,
                &self.list.2,
                &self.list.3,
                &self.list.4,
                &self.list.5,
                &self.list.6,
            ),
        };
        Appended { inner: &choice }.parse_next(alloc, input)
    }
}
