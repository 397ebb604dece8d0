//! `cut_err`, which turns `Backtrack` into `Cut`, and `backtrack_err`, which turns it back.

ghost use Rattle.winnow_parser.specs.Meanings.{CutsErr};
ghost use Rattle.winnow_parser.specs.Errors.{CutErrors};
ghost use Rattle.winnow_parser.specs.Parts.{IsParser-CutsErr};

use std::alloc::Global;
use winnow_parser::{Failure, ModalResult, Parser};
use winnow_stream::StreamIsPartial;

/// A parser that cuts where the inner one backtracks; [`cut_err`] makes it.
#[derive(Clone, Copy, Drop)]
pub struct CutErr<P> {
    pub(crate) inner: P,
}

impl<I: StreamIsPartial, E, P: Parser<I, E>> Parser<I, E> for CutErr<P> {
    type Output = P::Output;

    ghost means = { λ p. CutsErr (P.means p.inner) };

    ghost errors = { λ p. CutErrors (P.errors p.inner) };

    ghost ready = { λ p. P.ready p.inner };

    ghost lawful = { λ p. IsParser-CutsErr (P.means p.inner) (P.lawful p.inner) };

    // Inlined: an answer that a call hands on is copied through memory.
    #[inline(always)]
    fn parse_next(&self, alloc: Global, input: &mut I) -> ModalResult<P::Output, E> {
        match self.inner.parse_next(alloc, input) {
            Err(Failure::Backtrack(error)) => Err(Failure::Cut(error)),
            Err(Failure::Cut(error)) => Err(Failure::Cut(error)),
            Err(Failure::Incomplete(needed)) => Err(Failure::Incomplete(needed)),
            Err(Failure::Refused(refused)) => Err(Failure::Refused(refused)),
            Ok(value) => Ok(value),
        }
    }
}
