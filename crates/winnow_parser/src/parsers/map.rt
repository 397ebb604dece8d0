//! `Map`, `Value` and `Void`: parsers that replace or drop the value of another.

ghost use Rattle.std.specs.Prelude.{◌≡◌};
ghost use Rattle.winnow_parser.specs.Meanings.{GivesOnly, Maps};
ghost use Rattle.winnow_parser.specs.Parts.{IsParser-Maps};

use crate::{ModalResult, Parser};
use std::alloc::Global;
use std::marker::PhantomData;
use winnow_stream::StreamIsPartial;

/// A parser of what a function makes of the value; [`Parser::map`] makes it.
#[derive(Drop)]
#[derive_where(Clone, Copy; P, F)]
pub struct Map<P, F, I, E> {
    inner: P,
    f: F,
    parses: PhantomData<(I, E)>,
}

impl<P, F, I, E> Map<P, F, I, E> {
    // Returns the parser of what the function makes of the value.
    pub(crate) fn new(inner: P, f: F) -> Self
        ensures inner { result.inner ≡ inner }
        ensures f { result.f ≡ f }
    {
        Map {
            inner,
            f,
            parses: PhantomData,
        }
    }
}

impl<I: StreamIsPartial, E, P: Parser<I, E>, O, F: Fn(P::Output) -> O> Parser<I, E>
    for Map<P, F, I, E> {
    type Output = O;

    ghost means = { λ p. Maps (F.post p.f) (P.means p.inner) };

    ghost errors = { λ p. P.errors p.inner };

    ghost ready = { λ p. P.ready p.inner × GivesOnly (P.means p.inner) (F.pre p.f) };

    ghost lawful = { λ p. IsParser-Maps (F.post p.f) (P.means p.inner) (P.lawful p.inner) };

    // Inlined: an answer that a call hands on is copied through memory.
    #[inline(always)]
    fn parse_next(&self, alloc: Global, input: &mut I) -> ModalResult<O, E> {
        let value = self.inner.parse_next(alloc, input)?;
        Ok((self.f)(value))
    }
}
