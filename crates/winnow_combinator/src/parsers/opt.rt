//! `opt`, which succeeds with `None` if its parser backtracks.

ghost use Rattle.winnow_parser.specs.Meanings.{IsOpt};
ghost use Rattle.winnow_parser.specs.Parts.{IsParser-IsOpt};

use std::alloc::Global;
use winnow_parser::{Failure, ModalResult, Parser};
use winnow_stream::StreamIsPartial;

/// A parser that gives `None` where the inner one backtracks; [`opt`] makes it.
#[derive(Clone, Copy, Drop)]
pub struct Opt<P> {
    pub(crate) inner: P,
}

impl<I: StreamIsPartial, E: Drop, P: Parser<I, E>> Parser<I, E> for Opt<P> {
    type Output = Option<P::Output>;

    ghost means = { λ p. IsOpt (P.means p.inner) };

    ghost errors = { λ p. P.errors p.inner };

    ghost ready = { λ p. P.ready p.inner };

    ghost lawful = { λ p. IsParser-IsOpt (P.means p.inner) (P.lawful p.inner) };

    // Inlined: an answer that a call hands on is copied through memory.
    #[inline(always)]
    fn parse_next(&self, alloc: Global, input: &mut I) -> ModalResult<Option<P::Output>, E> {
        let start = input.checkpoint();
        match self.inner.parse_next(alloc, input) {
            Ok(value) => Ok(Some(value)),
            Err(Failure::Backtrack(_)) => {
                input.reset(&start);
                Ok(None)
            }
            Err(other) => Err(other),
        }
    }
}
