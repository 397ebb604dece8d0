//! `Appended`, which calls `append` on the error with which its parser backtracks.

ghost use Rattle.winnow_parser.specs.Answer.{ahead};
ghost use Rattle.winnow_combinator.specs.Appended.{Appending, AppendedErrors, IsParser-Appending};

use std::alloc::Global;
use winnow_error::ParserError;
use winnow_parser::{Failure, ModalResult, Parser};
use winnow_stream::StreamIsPartial;

// A parser that appends to the error with which the inner one backtracks.
#[derive_where(Clone, Copy)]
pub(crate) struct Appended<'a, P> {
    pub(crate) inner: &'a P,
}

impl<I: StreamIsPartial, E: ParserError<I>, P: Parser<I, E>> Parser<I, E> for Appended<'_, P> {
    type Output = P::Output;

    ghost means = { λ p. Appending E.append_refusable (P.means p.inner.now) };

    ghost errors = { λ p. AppendedErrors (ahead I.Checkpoint.location I.remained) E.append_gives
        (P.errors p.inner.now) };

    ghost ready = { λ p. P.ready p.inner.now };

    ghost lawful = { λ p. IsParser-Appending E.append_refusable (P.lawful p.inner.now) };

    // Inlined: an answer that a call hands on is copied through memory.
    #[inline(always)]
    fn parse_next(&self, alloc: Global, input: &mut I) -> ModalResult<P::Output, E> {
        let start = input.checkpoint();
        match self.inner.parse_next(alloc, input) {
            Err(Failure::Backtrack(error)) => match error.append(alloc, input, &start) {
                Ok(appended) => Err(Failure::Backtrack(appended)),
                Err(refused) => Err(Failure::Refused(refused)),
            },
            other => other,
        }
    }
}
