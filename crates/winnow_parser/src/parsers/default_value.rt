//! `DefaultValue`, which replaces the values of a parser with a default.

ghost use Rattle.std.specs.Prelude.{◌≡◌};
ghost use Rattle.winnow_parser.specs.Meanings.{Maps, IsAnyOf};
ghost use Rattle.winnow_parser.specs.Parts.{IsParser-Maps};

use crate::{ModalResult, Parser};
use std::alloc::Global;
use std::marker::PhantomData;
use winnow_stream::StreamIsPartial;

/// A parser that replaces each value of the inner one with a default; [`Parser::default_value`]
/// makes it.
#[derive(Drop)]
#[derive_where(Clone, Copy; P)]
pub struct DefaultValue<P, V, I, E> {
    inner: P,
    parses: PhantomData<(V, I, E)>,
}

impl<P, V, I, E> DefaultValue<P, V, I, E> {
    // Returns the parser of the default.
    pub(crate) fn new(inner: P) -> Self
        ensures inner { result.inner ≡ inner }
    {
        DefaultValue {
            inner,
            parses: PhantomData,
        }
    }
}

impl<I: StreamIsPartial, E, P: Parser<I, E>, V: Default> Parser<I, E> for DefaultValue<P, V, I, E>
where
    P::Output: Drop,
{
    type Output = V;

    ghost means = { λ p. Maps (IsAnyOf V.is_default) (P.means p.inner) };

    ghost errors = { λ p. P.errors p.inner };

    ghost ready = { λ p. P.ready p.inner };

    ghost lawful = { λ p.
        IsParser-Maps (IsAnyOf V.is_default) (P.means p.inner) (P.lawful p.inner) };

    #[inline(always)]
    fn parse_next(&self, alloc: Global, input: &mut I) -> ModalResult<V, E> {
        let _ = self.inner.parse_next(alloc, input)?;
        Ok(V::default())
    }
}
