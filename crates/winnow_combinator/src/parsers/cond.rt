//! `cond`, which calls a parser if a flag says so.

ghost use Rattle.winnow_combinator.specs.Cond.{IsCond, IsParser-IsCond};

use std::alloc::Global;
use winnow_parser::{ModalResult, Parser};
use winnow_stream::StreamIsPartial;

/// A parser that is asked or not; [`cond`] makes it.
#[derive(Clone, Copy, Drop)]
pub struct Cond<P> {
    pub(crate) is_asked: bool,
    pub(crate) inner: P,
}

impl<I: StreamIsPartial, E, P: Parser<I, E>> Parser<I, E> for Cond<P> {
    type Output = Option<P::Output>;

    ghost means = { λ p. IsCond p.is_asked (P.means p.inner) };

    ghost errors = { λ p. P.errors p.inner };

    ghost ready = { λ p. P.ready p.inner };

    ghost lawful = { λ p. IsParser-IsCond p.is_asked (P.lawful p.inner) };

    fn parse_next(&self, alloc: Global, input: &mut I) -> ModalResult<Option<P::Output>, E> {
        if !self.is_asked {
            return Ok(None);
        }
        let value = self.inner.parse_next(alloc, input)?;
        Ok(Some(value))
    }
}
