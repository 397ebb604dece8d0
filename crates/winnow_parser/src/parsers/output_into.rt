//! `OutputInto`, which converts the values of a parser.

ghost use Rattle.std.specs.Prelude.{◌≡◌};
ghost use Rattle.winnow_parser.specs.Meanings.{Maps};
ghost use Rattle.winnow_parser.specs.Parts.{IsParser-Maps};

use crate::{ModalResult, Parser};
use std::alloc::Global;
use std::marker::PhantomData;
use winnow_stream::StreamIsPartial;

/// A parser that converts the value of the inner one; [`Parser::output_into`] makes it.
#[derive(Drop)]
#[derive_where(Clone, Copy; P)]
pub struct OutputInto<P, O2, I, E> {
    inner: P,
    parses: PhantomData<(O2, I, E)>,
}

impl<P, O2, I, E> OutputInto<P, O2, I, E> {
    // Returns the parser that converts the value.
    pub(crate) fn new(inner: P) -> Self
        ensures inner { result.inner ≡ inner }
    {
        OutputInto {
            inner,
            parses: PhantomData,
        }
    }
}

impl<I: StreamIsPartial, E, O2, P: Parser<I, E>> Parser<I, E> for OutputInto<P, O2, I, E>
where
    P::Output: Into<O2>,
{
    type Output = O2;

    ghost means = { λ p. Maps P.Output.converts (P.means p.inner) };

    ghost errors = { λ p. P.errors p.inner };

    ghost ready = { λ p. P.ready p.inner };

    ghost lawful = { λ p.
        IsParser-Maps P.Output.converts (P.means p.inner) (P.lawful p.inner) };

    #[inline(always)]
    fn parse_next(&self, alloc: Global, input: &mut I) -> ModalResult<O2, E> {
        let value = self.inner.parse_next(alloc, input)?;
        Ok(value.into())
    }
}
