ghost use Rattle.std.specs.Prelude.{◌≡◌};
ghost use Rattle.winnow_parser.specs.Taken.{WithTaken, IsParser-WithTaken};

use crate::parsers::take::take_since;
use crate::{ModalResult, Parser};
use std::alloc::Global;
use std::marker::PhantomData;
use winnow_stream::StreamIsPartial;

/// A parser of the value and of the slice that the inner parser takes; [`Parser::with_taken`] makes
/// it.
#[derive(Drop)]
#[derive_where(Clone, Copy; P)]
pub struct WithTaken<P, I, E> {
    inner: P,
    parses: PhantomData<(I, E)>,
}

impl<P, I, E> WithTaken<P, I, E> {
    // Returns the parser of the value and of the slice that the inner one takes.
    pub(crate) fn new(inner: P) -> Self
        ensures inner { result.inner ≡ inner }
    {
        WithTaken {
            inner,
            parses: PhantomData,
        }
    }
}

impl<I: StreamIsPartial, E, P: Parser<I, E>> Parser<I, E> for WithTaken<P, I, E> {
    type Output = (P::Output, I::Slice);

    ghost means = { λ p. WithTaken I.is_slice (P.means p.inner) };

    ghost errors = { λ p. P.errors p.inner };

    ghost ready = { λ p. P.ready p.inner };

    ghost lawful = { λ p.
        IsParser-WithTaken I.is_slice I.slices_stay (P.means p.inner) (P.lawful p.inner) };

    #[inline(always)]
    fn parse_next(&self, alloc: Global, input: &mut I) -> ModalResult<(P::Output, I::Slice), E> {
        let start = input.checkpoint();
        let value = self.inner.parse_next(alloc, input)?;
        Ok((value, take_since(input, &start)))
    }
}
