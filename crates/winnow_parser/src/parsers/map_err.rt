//! `MapErr`, which makes other errors of those of a parser by a function.

ghost use Rattle.std.specs.Prelude.{◌≡◌};
ghost use Rattle.winnow_parser.specs.Errors.{CarriesOnly, MapErrors};

use crate::{Failure, ModalResult, Parser};
use std::alloc::Global;
use std::marker::PhantomData;
use winnow_stream::StreamIsPartial;

/// A parser whose errors are what a function makes of those of the inner one; [`Parser::map_err`]
/// makes it.
#[derive(Drop)]
#[derive_where(Clone, Copy; P, F)]
pub struct MapErr<P, F, I, E> {
    inner: P,
    f: F,
    parses: PhantomData<(I, E)>,
}

impl<P, F, I, E> MapErr<P, F, I, E> {
    // Returns the parser whose errors the function makes.
    pub(crate) fn new(inner: P, f: F) -> Self
        ensures inner { result.inner ≡ inner }
        ensures f { result.f ≡ f }
    {
        MapErr {
            inner,
            f,
            parses: PhantomData,
        }
    }
}

impl<I: StreamIsPartial, E, E2, P: Parser<I, E>, F: Fn(E) -> E2> Parser<I, E2>
    for MapErr<P, F, I, E> {
    type Output = P::Output;

    ghost means = { λ p. P.means p.inner };

    ghost errors = { λ p. MapErrors (F.post p.f) (P.errors p.inner) };

    ghost ready = { λ p. P.ready p.inner × CarriesOnly (P.errors p.inner) (F.pre p.f) };

    ghost lawful = { λ p. P.lawful p.inner };

    // Inlined: an answer that a call hands on is copied through memory.
    #[inline(always)]
    fn parse_next(&self, alloc: Global, input: &mut I) -> ModalResult<P::Output, E2> {
        match self.inner.parse_next(alloc, input) {
            Ok(value) => Ok(value),
            Err(Failure::Backtrack(error)) => Err(Failure::Backtrack((self.f)(error))),
            Err(Failure::Cut(error)) => Err(Failure::Cut((self.f)(error))),
            Err(Failure::Incomplete(needed)) => Err(Failure::Incomplete(needed)),
            Err(Failure::Refused(refused)) => Err(Failure::Refused(refused)),
        }
    }
}
