ghost use Rattle.std.specs.Prelude.{◌≡◌};
ghost use Rattle.winnow_parser.specs.Meanings.{Maps, IsForgotten};
ghost use Rattle.winnow_parser.specs.Parts.{IsParser-Maps};

use crate::{ModalResult, Parser};
use std::alloc::Global;
use std::marker::PhantomData;
use winnow_stream::StreamIsPartial;

/// A parser that drops the value of the inner one; [`Parser::void`] makes it.
#[derive(Drop)]
#[derive_where(Clone, Copy; P)]
pub struct Void<P, I, E> {
    inner: P,
    parses: PhantomData<(I, E)>,
}

impl<P, I, E> Void<P, I, E> {
    // Returns the parser that drops the value.
    pub(crate) fn new(inner: P) -> Self
        ensures inner { result.inner ≡ inner }
    {
        Void {
            inner,
            parses: PhantomData,
        }
    }
}

impl<I: StreamIsPartial, E, P: Parser<I, E>> Parser<I, E> for Void<P, I, E>
where
    P::Output: Drop,
{
    type Output = ();

    ghost means = { λ p. Maps IsForgotten (P.means p.inner) };

    ghost errors = { λ p. P.errors p.inner };

    ghost ready = { λ p. P.ready p.inner };

    ghost lawful = { λ p. IsParser-Maps IsForgotten (P.means p.inner) (P.lawful p.inner) };

    #[inline(always)]
    fn parse_next(&self, alloc: Global, input: &mut I) -> ModalResult<(), E> {
        let _ = self.inner.parse_next(alloc, input)?;
        Ok(())
    }
}
