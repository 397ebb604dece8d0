ghost use Rattle.winnow_parser.specs.Meanings.{BacktracksErr};
ghost use Rattle.winnow_parser.specs.Errors.{BacktrackErrors};
ghost use Rattle.winnow_parser.specs.Parts.{IsParser-BacktracksErr};

use std::alloc::Global;
use winnow_parser::{Failure, ModalResult, Parser};
use winnow_stream::StreamIsPartial;

/// A parser that backtracks where the inner one cuts; [`backtrack_err`] makes it.
#[derive(Clone, Copy, Drop)]
pub struct BacktrackErr<P> {
    pub(crate) inner: P,
}

impl<I: StreamIsPartial, E, P: Parser<I, E>> Parser<I, E> for BacktrackErr<P> {
    type Output = P::Output;

    ghost means = { λ p. BacktracksErr (P.means p.inner) };

    ghost errors = { λ p. BacktrackErrors (P.errors p.inner) };

    ghost ready = { λ p. P.ready p.inner };

    ghost lawful = { λ p. IsParser-BacktracksErr (P.means p.inner) (P.lawful p.inner) };

    #[inline(always)]
    fn parse_next(&self, alloc: Global, input: &mut I) -> ModalResult<P::Output, E> {
        match self.inner.parse_next(alloc, input) {
            Err(Failure::Backtrack(error)) => Err(Failure::Backtrack(error)),
            Err(Failure::Cut(error)) => Err(Failure::Backtrack(error)),
            Err(Failure::Incomplete(needed)) => Err(Failure::Incomplete(needed)),
            Err(Failure::Refused(refused)) => Err(Failure::Refused(refused)),
            Ok(value) => Ok(value),
        }
    }
}
