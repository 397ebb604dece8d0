ghost use Rattle.std.specs.Prelude.{◌≡◌};
ghost use Rattle.winnow_parser.specs.Meanings.{Maps, IsAlways};
ghost use Rattle.winnow_parser.specs.Parts.{IsParser-Maps};

use crate::{ModalResult, Parser};
use std::alloc::Global;
use std::marker::PhantomData;
use winnow_stream::StreamIsPartial;

/// A parser that replaces each value of the inner one with its own; [`Parser::value`] makes it.
#[derive(Drop)]
#[derive_where(Clone, Copy; P, V)]
pub struct Value<P, V, I, E> {
    inner: P,
    value: V,
    parses: PhantomData<(I, E)>,
}

impl<P, V, I, E> Value<P, V, I, E> {
    // Returns the parser of the value.
    pub(crate) fn new(inner: P, value: V) -> Self
        ensures inner { result.inner ≡ inner }
        ensures value { result.value ≡ value }
    {
        Value {
            inner,
            value,
            parses: PhantomData,
        }
    }
}

impl<I: StreamIsPartial, E, P: Parser<I, E>, V: Copy> Parser<I, E> for Value<P, V, I, E>
where
    P::Output: Drop,
{
    type Output = V;

    ghost means = { λ p. Maps (IsAlways p.value) (P.means p.inner) };

    ghost errors = { λ p. P.errors p.inner };

    ghost ready = { λ p. P.ready p.inner };

    ghost lawful = { λ p.
        IsParser-Maps (IsAlways p.value) (P.means p.inner) (P.lawful p.inner) };

    #[inline(always)]
    fn parse_next(&self, alloc: Global, input: &mut I) -> ModalResult<V, E> {
        let _ = self.inner.parse_next(alloc, input)?;
        Ok(self.value)
    }
}
