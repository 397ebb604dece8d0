//! Tuples of seven to ten parsers, which parse one after the other.

ghost use Rattle.winnow_parser.specs.Errors.{PairErrors};
ghost use Rattle.winnow_parser.specs.Rows.{Row7, Row8, Row9, Row10};
ghost use Rattle.winnow_parser.specs.Rows.{IsParser-Row7, IsParser-Row8};
ghost use Rattle.winnow_parser.specs.Rows.{IsParser-Row9, IsParser-Row10};

use crate::{ModalResult, Parser};
use std::alloc::Global;
use winnow_stream::StreamIsPartial;

/// Seven parsers, one after the other: their values.
impl<
    I: StreamIsPartial,
    E,
    A: Parser<I, E>,
    B: Parser<I, E>,
    C: Parser<I, E>,
    D: Parser<I, E>,
    F: Parser<I, E>,
    G: Parser<I, E>,
    H: Parser<I, E>,
> Parser<I, E> for (A, B, C, D, F, G, H)
where
    A::Output: Drop,
    B::Output: Drop,
    C::Output: Drop,
    D::Output: Drop,
    F::Output: Drop,
    G::Output: Drop,
{
    type Output = (
        A::Output,
        B::Output,
        C::Output,
        D::Output,
        F::Output,
        G::Output,
        H::Output,
    );

    ghost means = { λ p. Row7 (A.means p.0) (B.means p.1) (C.means p.2) (D.means p.3) (F.means p.4)
        (G.means p.5) (H.means p.6) };

    ghost errors = { λ p. PairErrors (A.means p.0) (A.errors p.0)
        (PairErrors (B.means p.1) (B.errors p.1) (PairErrors (C.means p.2) (C.errors p.2)
        (PairErrors (D.means p.3) (D.errors p.3) (PairErrors (F.means p.4) (F.errors p.4)
        (PairErrors (G.means p.5) (G.errors p.5) (H.errors p.6)))))) };

    ghost ready = { λ p. A.ready p.0 × B.ready p.1 × C.ready p.2 × D.ready p.3 × F.ready p.4
        × G.ready p.5 × H.ready p.6 };

    ghost lawful = { λ p. IsParser-Row7 (A.means p.0) (B.means p.1) (C.means p.2) (D.means p.3)
        (F.means p.4) (G.means p.5) (H.means p.6)
        (A.lawful p.0) (B.lawful p.1) (C.lawful p.2) (D.lawful p.3) (F.lawful p.4) (G.lawful p.5)
        (H.lawful p.6) };

    #[inline(always)]
    fn parse_next(&self, alloc: Global, input: &mut I) -> ModalResult<Self::Output, E> {
        match self.0.parse_next(alloc, input) {
            Ok(first) => match (&self.1, &self.2, &self.3, &self.4, &self.5, &self.6).parse_next(
                alloc, input,
            ) {
                Ok((second, third, fourth, fifth, sixth, seventh)) => Ok((
                    first, second, third, fourth, fifth, sixth, seventh,
                )),
                Err(failure) => Err(failure),
            },
            Err(failure) => Err(failure),
        }
    }
}

/// Eight parsers, one after the other: their values.
impl<
    I: StreamIsPartial,
    E,
    A: Parser<I, E>,
    B: Parser<I, E>,
    C: Parser<I, E>,
    D: Parser<I, E>,
    F: Parser<I, E>,
    G: Parser<I, E>,
    H: Parser<I, E>,
    J: Parser<I, E>,
> Parser<I, E> for (A, B, C, D, F, G, H, J)
where
    A::Output: Drop,
    B::Output: Drop,
    C::Output: Drop,
    D::Output: Drop,
    F::Output: Drop,
    G::Output: Drop,
    H::Output: Drop,
{
    type Output = (
        A::Output,
        B::Output,
        C::Output,
        D::Output,
        F::Output,
        G::Output,
        H::Output,
        J::Output,
    );

    ghost means = { λ p. Row8 (A.means p.0) (B.means p.1) (C.means p.2) (D.means p.3) (F.means p.4)
        (G.means p.5) (H.means p.6) (J.means p.7) };

    ghost errors = { λ p. PairErrors (A.means p.0) (A.errors p.0)
        (PairErrors (B.means p.1) (B.errors p.1) (PairErrors (C.means p.2) (C.errors p.2)
        (PairErrors (D.means p.3) (D.errors p.3) (PairErrors (F.means p.4) (F.errors p.4)
        (PairErrors (G.means p.5) (G.errors p.5) (PairErrors (H.means p.6) (H.errors p.6)
        (J.errors p.7))))))) };

    ghost ready = { λ p. A.ready p.0 × B.ready p.1 × C.ready p.2 × D.ready p.3 × F.ready p.4
        × G.ready p.5 × H.ready p.6 × J.ready p.7 };

    ghost lawful = { λ p. IsParser-Row8 (A.means p.0) (B.means p.1) (C.means p.2) (D.means p.3)
        (F.means p.4) (G.means p.5) (H.means p.6) (J.means p.7)
        (A.lawful p.0) (B.lawful p.1) (C.lawful p.2) (D.lawful p.3) (F.lawful p.4) (G.lawful p.5)
        (H.lawful p.6) (J.lawful p.7) };

    #[inline(always)]
    fn parse_next(&self, alloc: Global, input: &mut I) -> ModalResult<Self::Output, E> {
        match self.0.parse_next(alloc, input) {
            Ok(first) => match (
                &self.1, &self.2, &self.3, &self.4, &self.5, &self.6, &self.7,
            )
                .parse_next(alloc, input)
            {
                Ok((second, third, fourth, fifth, sixth, seventh, eighth)) => Ok((
                    first, second, third, fourth, fifth, sixth, seventh, eighth,
                )),
                Err(failure) => Err(failure),
            },
            Err(failure) => Err(failure),
        }
    }
}

/// Nine parsers, one after the other: their values.
impl<
    I: StreamIsPartial,
    E,
    A: Parser<I, E>,
    B: Parser<I, E>,
    C: Parser<I, E>,
    D: Parser<I, E>,
    F: Parser<I, E>,
    G: Parser<I, E>,
    H: Parser<I, E>,
    J: Parser<I, E>,
    K: Parser<I, E>,
> Parser<I, E> for (A, B, C, D, F, G, H, J, K)
where
    A::Output: Drop,
    B::Output: Drop,
    C::Output: Drop,
    D::Output: Drop,
    F::Output: Drop,
    G::Output: Drop,
    H::Output: Drop,
    J::Output: Drop,
{
    type Output = (
        A::Output,
        B::Output,
        C::Output,
        D::Output,
        F::Output,
        G::Output,
        H::Output,
        J::Output,
        K::Output,
    );

    ghost means = { λ p. Row9 (A.means p.0) (B.means p.1) (C.means p.2) (D.means p.3) (F.means p.4)
        (G.means p.5) (H.means p.6) (J.means p.7) (K.means p.8) };

    ghost errors = { λ p. PairErrors (A.means p.0) (A.errors p.0)
        (PairErrors (B.means p.1) (B.errors p.1) (PairErrors (C.means p.2) (C.errors p.2)
        (PairErrors (D.means p.3) (D.errors p.3) (PairErrors (F.means p.4) (F.errors p.4)
        (PairErrors (G.means p.5) (G.errors p.5) (PairErrors (H.means p.6) (H.errors p.6)
        (PairErrors (J.means p.7) (J.errors p.7) (K.errors p.8)))))))) };

    ghost ready = { λ p. A.ready p.0 × B.ready p.1 × C.ready p.2 × D.ready p.3 × F.ready p.4
        × G.ready p.5 × H.ready p.6 × J.ready p.7 × K.ready p.8 };

    ghost lawful = { λ p. IsParser-Row9 (A.means p.0) (B.means p.1) (C.means p.2) (D.means p.3)
        (F.means p.4) (G.means p.5) (H.means p.6) (J.means p.7) (K.means p.8)
        (A.lawful p.0) (B.lawful p.1) (C.lawful p.2) (D.lawful p.3) (F.lawful p.4) (G.lawful p.5)
        (H.lawful p.6) (J.lawful p.7) (K.lawful p.8) };

    #[inline(always)]
    fn parse_next(&self, alloc: Global, input: &mut I) -> ModalResult<Self::Output, E> {
        match self.0.parse_next(alloc, input) {
            Ok(first) => match (
                &self.1, &self.2, &self.3, &self.4, &self.5, &self.6, &self.7, &self.8,
            )
                .parse_next(alloc, input)
            {
                Ok((second, third, fourth, fifth, sixth, seventh, eighth, ninth)) => Ok((
                    first, second, third, fourth, fifth, sixth, seventh, eighth, ninth,
                )),
                Err(failure) => Err(failure),
            },
            Err(failure) => Err(failure),
        }
    }
}

/// Ten parsers, one after the other: their values.
impl<
    I: StreamIsPartial,
    E,
    A: Parser<I, E>,
    B: Parser<I, E>,
    C: Parser<I, E>,
    D: Parser<I, E>,
    F: Parser<I, E>,
    G: Parser<I, E>,
    H: Parser<I, E>,
    J: Parser<I, E>,
    K: Parser<I, E>,
    L: Parser<I, E>,
> Parser<I, E> for (A, B, C, D, F, G, H, J, K, L)
where
    A::Output: Drop,
    B::Output: Drop,
    C::Output: Drop,
    D::Output: Drop,
    F::Output: Drop,
    G::Output: Drop,
    H::Output: Drop,
    J::Output: Drop,
    K::Output: Drop,
{
    type Output = (
        A::Output,
        B::Output,
        C::Output,
        D::Output,
        F::Output,
        G::Output,
        H::Output,
        J::Output,
        K::Output,
        L::Output,
    );

    ghost means = { λ p. Row10 (A.means p.0) (B.means p.1) (C.means p.2) (D.means p.3) (F.means p.4)
        (G.means p.5) (H.means p.6) (J.means p.7) (K.means p.8) (L.means p.9) };

    ghost errors = { λ p. PairErrors (A.means p.0) (A.errors p.0)
        (PairErrors (B.means p.1) (B.errors p.1) (PairErrors (C.means p.2) (C.errors p.2)
        (PairErrors (D.means p.3) (D.errors p.3) (PairErrors (F.means p.4) (F.errors p.4)
        (PairErrors (G.means p.5) (G.errors p.5) (PairErrors (H.means p.6) (H.errors p.6)
        (PairErrors (J.means p.7) (J.errors p.7) (PairErrors (K.means p.8) (K.errors p.8)
        (L.errors p.9))))))))) };

    ghost ready = { λ p. A.ready p.0 × B.ready p.1 × C.ready p.2 × D.ready p.3 × F.ready p.4
        × G.ready p.5 × H.ready p.6 × J.ready p.7 × K.ready p.8 × L.ready p.9 };

    ghost lawful = { λ p. IsParser-Row10 (A.means p.0) (B.means p.1) (C.means p.2) (D.means p.3)
        (F.means p.4) (G.means p.5) (H.means p.6) (J.means p.7) (K.means p.8) (L.means p.9)
        (A.lawful p.0) (B.lawful p.1) (C.lawful p.2) (D.lawful p.3) (F.lawful p.4) (G.lawful p.5)
        (H.lawful p.6) (J.lawful p.7) (K.lawful p.8) (L.lawful p.9) };

    #[inline(always)]
    fn parse_next(&self, alloc: Global, input: &mut I) -> ModalResult<Self::Output, E> {
        match self.0.parse_next(alloc, input) {
            Ok(first) => match (
                &self.1, &self.2, &self.3, &self.4, &self.5, &self.6, &self.7, &self.8, &self.9,
            )
                .parse_next(alloc, input)
            {
                Ok((second, third, fourth, fifth, sixth, seventh, eighth, ninth, tenth)) => Ok((
                    first, second, third, fourth, fifth, sixth, seventh, eighth, ninth, tenth,
                )),
                Err(failure) => Err(failure),
            },
            Err(failure) => Err(failure),
        }
    }
}
