//! Tuples of none to six parsers, which parse one after the other.

ghost use Rattle.std.specs.Prelude.{◌≡◌, ⊤};
ghost use Rattle.winnow_parser.specs.Meanings.{Maps, Pair, Returns};
ghost use Rattle.winnow_parser.specs.Errors.{NoError, PairErrors};
ghost use Rattle.winnow_parser.specs.Parts.{IsParser-Maps, IsParser-Pair, IsParser-Returns};
ghost use Rattle.winnow_parser.specs.Rows.{Row3, Row4, Row5, Row6};
ghost use Rattle.winnow_parser.specs.Rows.{IsParser-Row3, IsParser-Row4, IsParser-Row5};
ghost use Rattle.winnow_parser.specs.Rows.{IsParser-Row6};

use crate::{ModalResult, Parser};
use std::alloc::Global;
use winnow_stream::StreamIsPartial;

/// No parser: it gives nothing and takes nothing.
impl<I: StreamIsPartial, E> Parser<I, E> for () {
    type Output = ();

    ghost means = { λ _. Returns tt };

    ghost errors = { λ _. NoError };

    ghost ready = { λ _. ⊤ };

    ghost lawful = { λ _. IsParser-Returns tt };

    fn parse_next(&self, _alloc: Global, _input: &mut I) -> ModalResult<(), E> {
        Ok(())
    }
}

/// One parser: its value, in a tuple.
impl<I: StreamIsPartial, E, A: Parser<I, E>> Parser<I, E> for (A,) {
    type Output = (A::Output,);

    ghost means = { λ p. Maps (λ value all. value ≡ all.0) (A.means p.0) };

    ghost errors = { λ p. A.errors p.0 };

    ghost ready = { λ p. A.ready p.0 };

    ghost lawful = { λ p.
        IsParser-Maps (λ value all. value ≡ all.0) (A.means p.0) (A.lawful p.0) };

    // Inlined: an answer that a call hands on is copied through memory.
    #[inline(always)]
    fn parse_next(&self, alloc: Global, input: &mut I) -> ModalResult<(A::Output,), E> {
        match self.0.parse_next(alloc, input) {
            Ok(value) => Ok((value,)),
            Err(failure) => Err(failure),
        }
    }
}

/// Two parsers, one after the other: their values.
impl<I: StreamIsPartial, E, A: Parser<I, E>, B: Parser<I, E>> Parser<I, E> for (A, B)
where
    A::Output: Drop,
{
    type Output = (A::Output, B::Output);

    ghost means = { λ p. Pair (A.means p.0) (B.means p.1) };

    ghost errors = { λ p. PairErrors (A.means p.0) (A.errors p.0) (B.errors p.1) };

    ghost ready = { λ p. A.ready p.0 × B.ready p.1 };

    ghost lawful = { λ p. IsParser-Pair (A.means p.0) (B.means p.1) (A.lawful p.0) (B.lawful p.1) };

    #[inline(always)]
    fn parse_next(&self, alloc: Global, input: &mut I) -> ModalResult<(A::Output, B::Output), E> {
        match self.0.parse_next(alloc, input) {
            Ok(first) => match self.1.parse_next(alloc, input) {
                Ok(second) => Ok((first, second)),
                Err(failure) => Err(failure),
            },
            Err(failure) => Err(failure),
        }
    }
}

/// Three parsers, one after the other: their values.
impl<I: StreamIsPartial, E, A: Parser<I, E>, B: Parser<I, E>, C: Parser<I, E>> Parser<I, E>
    for (A, B, C)
where
    A::Output: Drop,
    B::Output: Drop,
{
    type Output = (A::Output, B::Output, C::Output);

    ghost means = { λ p. Row3 (A.means p.0) (B.means p.1) (C.means p.2) };

    ghost errors = { λ p. PairErrors (A.means p.0) (A.errors p.0)
        (PairErrors (B.means p.1) (B.errors p.1) (C.errors p.2)) };

    ghost ready = { λ p. A.ready p.0 × B.ready p.1 × C.ready p.2 };

    ghost lawful = { λ p. IsParser-Row3 (A.means p.0) (B.means p.1) (C.means p.2) (A.lawful p.0)
        (B.lawful p.1) (C.lawful p.2) };

    #[inline(always)]
    fn parse_next(
        &self,
        alloc: Global,
        input: &mut I,
    ) -> ModalResult<(A::Output, B::Output, C::Output), E> {
        match self.0.parse_next(alloc, input) {
            Ok(first) => match (&self.1, &self.2).parse_next(alloc, input) {
                Ok((second, third)) => Ok((first, second, third)),
                Err(failure) => Err(failure),
            },
            Err(failure) => Err(failure),
        }
    }
}

/// Four parsers, one after the other: their values.
impl<
    I: StreamIsPartial,
    E,
    A: Parser<I, E>,
    B: Parser<I, E>,
    C: Parser<I, E>,
    D: Parser<I, E>,
> Parser<I, E> for (A, B, C, D)
where
    A::Output: Drop,
    B::Output: Drop,
    C::Output: Drop,
{
    type Output = (A::Output, B::Output, C::Output, D::Output);

    ghost means = { λ p. Row4 (A.means p.0) (B.means p.1) (C.means p.2) (D.means p.3) };

    ghost errors = { λ p. PairErrors (A.means p.0) (A.errors p.0)
        (PairErrors (B.means p.1) (B.errors p.1) (PairErrors (C.means p.2) (C.errors p.2)
        (D.errors p.3))) };

    ghost ready = { λ p. A.ready p.0 × B.ready p.1 × C.ready p.2 × D.ready p.3 };

    ghost lawful = { λ p. IsParser-Row4 (A.means p.0) (B.means p.1) (C.means p.2) (D.means p.3)
        (A.lawful p.0) (B.lawful p.1) (C.lawful p.2) (D.lawful p.3) };

    #[inline(always)]
    fn parse_next(&self, alloc: Global, input: &mut I) -> ModalResult<Self::Output, E> {
        match self.0.parse_next(alloc, input) {
            Ok(first) => match (&self.1, &self.2, &self.3).parse_next(alloc, input) {
                Ok((second, third, fourth)) => Ok((first, second, third, fourth)),
                Err(failure) => Err(failure),
            },
            Err(failure) => Err(failure),
        }
    }
}

/// Five parsers, one after the other: their values.
impl<
    I: StreamIsPartial,
    E,
    A: Parser<I, E>,
    B: Parser<I, E>,
    C: Parser<I, E>,
    D: Parser<I, E>,
    F: Parser<I, E>,
> Parser<I, E> for (A, B, C, D, F)
where
    A::Output: Drop,
    B::Output: Drop,
    C::Output: Drop,
    D::Output: Drop,
{
    type Output = (A::Output, B::Output, C::Output, D::Output, F::Output);

    ghost means = { λ p. Row5 (A.means p.0) (B.means p.1) (C.means p.2) (D.means p.3)
        (F.means p.4) };

    ghost errors = { λ p. PairErrors (A.means p.0) (A.errors p.0)
        (PairErrors (B.means p.1) (B.errors p.1) (PairErrors (C.means p.2) (C.errors p.2)
        (PairErrors (D.means p.3) (D.errors p.3) (F.errors p.4)))) };

    ghost ready = { λ p. A.ready p.0 × B.ready p.1 × C.ready p.2 × D.ready p.3 × F.ready p.4 };

    ghost lawful = { λ p. IsParser-Row5 (A.means p.0) (B.means p.1) (C.means p.2) (D.means p.3)
        (F.means p.4)
        (A.lawful p.0) (B.lawful p.1) (C.lawful p.2) (D.lawful p.3) (F.lawful p.4) };

    #[inline(always)]
    fn parse_next(&self, alloc: Global, input: &mut I) -> ModalResult<Self::Output, E> {
        match self.0.parse_next(alloc, input) {
            Ok(first) => match (&self.1, &self.2, &self.3, &self.4).parse_next(alloc, input) {
                Ok((second, third, fourth, fifth)) => Ok((first, second, third, fourth, fifth)),
                Err(failure) => Err(failure),
            },
            Err(failure) => Err(failure),
        }
    }
}

/// Six parsers, one after the other: their values.
impl<
    I: StreamIsPartial,
    E,
    A: Parser<I, E>,
    B: Parser<I, E>,
    C: Parser<I, E>,
    D: Parser<I, E>,
    F: Parser<I, E>,
    G: Parser<I, E>,
> Parser<I, E> for (A, B, C, D, F, G)
where
    A::Output: Drop,
    B::Output: Drop,
    C::Output: Drop,
    D::Output: Drop,
    F::Output: Drop,
{
    type Output = (
        A::Output,
        B::Output,
        C::Output,
        D::Output,
        F::Output,
        G::Output,
    );

    ghost means = { λ p. Row6 (A.means p.0) (B.means p.1) (C.means p.2) (D.means p.3) (F.means p.4)
        (G.means p.5) };

    ghost errors = { λ p. PairErrors (A.means p.0) (A.errors p.0)
        (PairErrors (B.means p.1) (B.errors p.1) (PairErrors (C.means p.2) (C.errors p.2)
        (PairErrors (D.means p.3) (D.errors p.3) (PairErrors (F.means p.4) (F.errors p.4)
        (G.errors p.5))))) };

    ghost ready = { λ p. A.ready p.0 × B.ready p.1 × C.ready p.2 × D.ready p.3 × F.ready p.4
        × G.ready p.5 };

    ghost lawful = { λ p. IsParser-Row6 (A.means p.0) (B.means p.1) (C.means p.2) (D.means p.3)
        (F.means p.4) (G.means p.5)
        (A.lawful p.0) (B.lawful p.1) (C.lawful p.2) (D.lawful p.3) (F.lawful p.4) (G.lawful p.5) };

    #[inline(always)]
    fn parse_next(&self, alloc: Global, input: &mut I) -> ModalResult<Self::Output, E> {
        match self.0.parse_next(alloc, input) {
            Ok(first) => match (&self.1, &self.2, &self.3, &self.4, &self.5).parse_next(
                alloc, input,
            ) {
                Ok((second, third, fourth, fifth, sixth)) => Ok((
                    first, second, third, fourth, fifth, sixth,
                )),
                Err(failure) => Err(failure),
            },
            Err(failure) => Err(failure),
        }
    }
}
