//! `peek` and `not`, which consume nothing.

ghost use Rattle.winnow_parser.specs.Meanings.{Peeks};
ghost use Rattle.winnow_parser.specs.Parts.{IsParser-Peeks};

use std::alloc::Global;
use winnow_parser::{ModalResult, Parser};
use winnow_stream::StreamIsPartial;

/// A parser that gives the value of the inner one and takes nothing; [`peek`] makes it.
#[derive(Clone, Copy, Drop)]
pub struct Peek<P> {
    pub(crate) inner: P,
}

impl<I: StreamIsPartial, E, P: Parser<I, E>> Parser<I, E> for Peek<P>
where
    P::Output: Drop,
{
    type Output = P::Output;

    ghost means = { λ p. Peeks (P.means p.inner) };

    ghost errors = { λ p. P.errors p.inner };

    ghost ready = { λ p. P.ready p.inner };

    ghost lawful = { λ p. IsParser-Peeks (P.means p.inner) (P.lawful p.inner) };

    fn parse_next(&self, alloc: Global, input: &mut I) -> ModalResult<P::Output, E> {
        let start = input.checkpoint();
        let value = self.inner.parse_next(alloc, input)?;
        input.reset(&start);
        Ok(value)
    }
}
