ghost use Rattle.std.specs.Prelude.{◌≡◌};
ghost use Rattle.winnow_stream.specs.Location.{IsLocation};
ghost use Rattle.winnow_parser.specs.Span.{HasSpan, IsParser-HasSpan};

use crate::{ModalResult, Parser};
use std::alloc::Global;
use std::marker::PhantomData;
use std::ops::Range;
use winnow_stream::{Location, StreamIsPartial};

/// A parser of the value and of the range that the inner parser takes; [`Parser::with_span`] makes
/// it.
#[derive(Drop)]
#[derive_where(Clone, Copy; P)]
pub struct WithSpan<P, I, E> {
    inner: P,
    parses: PhantomData<(I, E)>,
}

impl<P, I, E> WithSpan<P, I, E> {
    // Returns the parser of the value and of the range that the inner one takes.
    pub(crate) fn new(inner: P) -> Self
        ensures inner { result.inner ≡ inner }
    {
        WithSpan {
            inner,
            parses: PhantomData,
        }
    }
}

impl<I: StreamIsPartial + Location, E, P: Parser<I, E>> Parser<I, E> for WithSpan<P, I, E> {
    type Output = (P::Output, Range<usize>);

    ghost means = { λ p. HasSpan (P.means p.inner) };

    ghost errors = { λ p. P.errors p.inner };

    ghost ready = { λ p. P.ready p.inner × IsLocation I.location I.token_end I.token_start };

    ghost lawful = { λ p. IsParser-HasSpan (P.means p.inner) (P.lawful p.inner) };

    fn parse_next(
        &self,
        alloc: Global,
        input: &mut I,
    ) -> ModalResult<(P::Output, Range<usize>), E> {
        let start = input.current_token_start();
        let value = self.inner.parse_next(alloc, input)?;
        let end = input.previous_token_end();
        Ok((value, start..end))
    }
}
