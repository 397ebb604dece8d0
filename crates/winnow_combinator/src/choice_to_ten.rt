//! `Choice` of eight to ten parsers.

ghost use Rattle.winnow_parser.specs.Answer.{ahead};
ghost use Rattle.winnow_combinator.specs.AltErrors.{AltErrors8, AltErrors9};
ghost use Rattle.winnow_combinator.specs.AltErrors.{AltErrors10};
ghost use Rattle.winnow_combinator.specs.Alt.{IsAlt8, IsParser-IsAlt8};
ghost use Rattle.winnow_combinator.specs.Alt.{IsAlt9, IsParser-IsAlt9};
ghost use Rattle.winnow_combinator.specs.Alt.{IsAlt10, IsParser-IsAlt10};

use crate::choice::Choice;
use std::alloc::Global;
use winnow_error::ParserError;
use winnow_parser::{ModalResult, Parser};
use winnow_stream::StreamIsPartial;

// Tries eight parsers in turn.
impl<
    I: StreamIsPartial,
    E: ParserError<I>,
    A: Parser<I, E>,
    B: Parser<I, E, Output = A::Output>,
    C: Parser<I, E, Output = A::Output>,
    D: Parser<I, E, Output = A::Output>,
    F: Parser<I, E, Output = A::Output>,
    G: Parser<I, E, Output = A::Output>,
    H: Parser<I, E, Output = A::Output>,
    J: Parser<I, E, Output = A::Output>,
> Parser<I, E> for Choice<(A, B, C, D, F, G, H, J)> {
    type Output = A::Output;

    ghost means = { λ p. IsAlt8 E.or_refusable (A.means p.list.0) (B.means p.list.1)
        (C.means p.list.2) (D.means p.list.3) (F.means p.list.4) (G.means p.list.5)
        (H.means p.list.6) (J.means p.list.7) };

    ghost errors = { λ p. AltErrors8 (ahead I.location I.remaining) E.or_refusable E.or_gives
        (A.means p.list.0) (A.errors p.list.0) (B.means p.list.1) (B.errors p.list.1)
        (C.means p.list.2) (C.errors p.list.2) (D.means p.list.3) (D.errors p.list.3)
        (F.means p.list.4) (F.errors p.list.4) (G.means p.list.5) (G.errors p.list.5)
        (H.means p.list.6) (H.errors p.list.6) (J.errors p.list.7) };

    ghost ready = { λ p. A.ready p.list.0 × B.ready p.list.1 × C.ready p.list.2 × D.ready p.list.3
        × F.ready p.list.4 × G.ready p.list.5 × H.ready p.list.6 × J.ready p.list.7 };

    ghost lawful = { λ p. IsParser-IsAlt8 E.or_refusable (A.lawful p.list.0) (B.lawful p.list.1)
        (C.lawful p.list.2) (D.lawful p.list.3) (F.lawful p.list.4) (G.lawful p.list.5)
        (H.lawful p.list.6) (J.lawful p.list.7) };

    fn parse_next(&self, alloc: Global, input: &mut I) -> ModalResult<A::Output, E> {
        let first = Choice {
            list: (
                &self.list.0,
                &self.list.1,
                &self.list.2,
                &self.list.3,
                &self.list.4,
                &self.list.5,
                &self.list.6,
            ),
        };
        Choice {
            list: (first, &self.list.7),
        }
        .parse_next(alloc, input)
    }
}

// Tries nine parsers in turn.
impl<
    I: StreamIsPartial,
    E: ParserError<I>,
    A: Parser<I, E>,
    B: Parser<I, E, Output = A::Output>,
    C: Parser<I, E, Output = A::Output>,
    D: Parser<I, E, Output = A::Output>,
    F: Parser<I, E, Output = A::Output>,
    G: Parser<I, E, Output = A::Output>,
    H: Parser<I, E, Output = A::Output>,
    J: Parser<I, E, Output = A::Output>,
    K: Parser<I, E, Output = A::Output>,
> Parser<I, E> for Choice<(A, B, C, D, F, G, H, J, K)> {
    type Output = A::Output;

    ghost means = { λ p. IsAlt9 E.or_refusable (A.means p.list.0) (B.means p.list.1)
        (C.means p.list.2) (D.means p.list.3) (F.means p.list.4) (G.means p.list.5)
        (H.means p.list.6) (J.means p.list.7) (K.means p.list.8) };

    ghost errors = { λ p. AltErrors9 (ahead I.location I.remaining) E.or_refusable E.or_gives
        (A.means p.list.0) (A.errors p.list.0) (B.means p.list.1) (B.errors p.list.1)
        (C.means p.list.2) (C.errors p.list.2) (D.means p.list.3) (D.errors p.list.3)
        (F.means p.list.4) (F.errors p.list.4) (G.means p.list.5) (G.errors p.list.5)
        (H.means p.list.6) (H.errors p.list.6) (J.means p.list.7) (J.errors p.list.7)
        (K.errors p.list.8) };

    ghost ready = { λ p. A.ready p.list.0 × B.ready p.list.1 × C.ready p.list.2 × D.ready p.list.3
        × F.ready p.list.4 × G.ready p.list.5 × H.ready p.list.6 × J.ready p.list.7
        × K.ready p.list.8 };

    ghost lawful = { λ p. IsParser-IsAlt9 E.or_refusable (A.lawful p.list.0) (B.lawful p.list.1)
        (C.lawful p.list.2) (D.lawful p.list.3) (F.lawful p.list.4) (G.lawful p.list.5)
        (H.lawful p.list.6) (J.lawful p.list.7) (K.lawful p.list.8) };

    fn parse_next(&self, alloc: Global, input: &mut I) -> ModalResult<A::Output, E> {
        let first = Choice {
            list: (
                &self.list.0,
                &self.list.1,
                &self.list.2,
                &self.list.3,
                &self.list.4,
                &self.list.5,
                &self.list.6,
                &self.list.7,
            ),
        };
        Choice {
            list: (first, &self.list.8),
        }
        .parse_next(alloc, input)
    }
}

// Tries ten parsers in turn.
impl<
    I: StreamIsPartial,
    E: ParserError<I>,
    A: Parser<I, E>,
    B: Parser<I, E, Output = A::Output>,
    C: Parser<I, E, Output = A::Output>,
    D: Parser<I, E, Output = A::Output>,
    F: Parser<I, E, Output = A::Output>,
    G: Parser<I, E, Output = A::Output>,
    H: Parser<I, E, Output = A::Output>,
    J: Parser<I, E, Output = A::Output>,
    K: Parser<I, E, Output = A::Output>,
    L: Parser<I, E, Output = A::Output>,
> Parser<I, E> for Choice<(A, B, C, D, F, G, H, J, K, L)> {
    type Output = A::Output;

    ghost means = { λ p. IsAlt10 E.or_refusable (A.means p.list.0) (B.means p.list.1)
        (C.means p.list.2) (D.means p.list.3) (F.means p.list.4) (G.means p.list.5)
        (H.means p.list.6) (J.means p.list.7) (K.means p.list.8) (L.means p.list.9) };

    ghost errors = { λ p. AltErrors10 (ahead I.location I.remaining) E.or_refusable E.or_gives
        (A.means p.list.0) (A.errors p.list.0) (B.means p.list.1) (B.errors p.list.1)
        (C.means p.list.2) (C.errors p.list.2) (D.means p.list.3) (D.errors p.list.3)
        (F.means p.list.4) (F.errors p.list.4) (G.means p.list.5) (G.errors p.list.5)
        (H.means p.list.6) (H.errors p.list.6) (J.means p.list.7) (J.errors p.list.7)
        (K.means p.list.8) (K.errors p.list.8) (L.errors p.list.9) };

    ghost ready = { λ p. A.ready p.list.0 × B.ready p.list.1 × C.ready p.list.2 × D.ready p.list.3
        × F.ready p.list.4 × G.ready p.list.5 × H.ready p.list.6 × J.ready p.list.7
        × K.ready p.list.8 × L.ready p.list.9 };

    ghost lawful = { λ p. IsParser-IsAlt10 E.or_refusable (A.lawful p.list.0) (B.lawful p.list.1)
        (C.lawful p.list.2) (D.lawful p.list.3) (F.lawful p.list.4) (G.lawful p.list.5)
        (H.lawful p.list.6) (J.lawful p.list.7) (K.lawful p.list.8) (L.lawful p.list.9) };

    fn parse_next(&self, alloc: Global, input: &mut I) -> ModalResult<A::Output, E> {
        let first = Choice {
            list: (
                &self.list.0,
                &self.list.1,
                &self.list.2,
                &self.list.3,
                &self.list.4,
                &self.list.5,
                &self.list.6,
                &self.list.7,
                &self.list.8,
            ),
        };
        Choice {
            list: (first, &self.list.9),
        }
        .parse_next(alloc, input)
    }
}
