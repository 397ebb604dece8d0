//! `FlatMap`: a parser, and then the one that a function makes of its value.

ghost use Rattle.std.specs.Prelude.{◌≡◌};
ghost use Rattle.winnow_parser.specs.Errors.{FlatMapErrors};
ghost use Rattle.winnow_parser.specs.Meanings.{GivesOnly};
ghost use Rattle.winnow_parser.specs.FlatMap.{FlatMaps, IsParser-FlatMaps};

use crate::{ModalResult, Parser};
use std::alloc::Global;
use std::marker::PhantomData;
use winnow_stream::StreamIsPartial;

/// A parser, and then the one that a function makes of its value; [`Parser::flat_map`] makes it.
#[derive(Drop)]
#[derive_where(Clone, Copy; P, F)]
pub struct FlatMap<P, F, I, E> {
    first: P,
    f: F,
    parses: PhantomData<(I, E)>,
}

impl<P, F, I, E> FlatMap<P, F, I, E> {
    // Returns the parser that goes on with what the function makes of the value.
    pub(crate) fn new(first: P, f: F) -> Self
        ensures first { result.first ≡ first }
        ensures f { result.f ≡ f }
    {
        FlatMap {
            first,
            f,
            parses: PhantomData,
        }
    }
}

impl<I: StreamIsPartial, E, P: Parser<I, E>, Q: Parser<I, E> + Drop, F: Fn(P::Output) -> Q> Parser<
    I,
    E,
> for FlatMap<P, F, I, E> {
    type Output = Q::Output;

    ghost means = { λ p. FlatMaps (F.post p.f) Q.means (P.means p.first) };

    ghost errors = { λ p.
        FlatMapErrors (F.post p.f) Q.errors (P.means p.first) (P.errors p.first) };

    ghost ready = { λ p. P.ready p.first × GivesOnly (P.means p.first) (F.pre p.f)
        × ((x : P.Output) (q : Q) → F.post p.f x q → Q.ready q) };

    ghost lawful = { λ p.
        IsParser-FlatMaps (F.post p.f) Q.means (P.means p.first) Q.lawful (P.lawful p.first) };

    fn parse_next(&self, alloc: Global, input: &mut I) -> ModalResult<Q::Output, E> {
        let value = self.first.parse_next(alloc, input)?;
        let next = (self.f)(value);
        match next.parse_next(alloc, input) {
            Ok(made) => Ok(made),
            Err(failure) => Err(failure),
        }
    }
}
