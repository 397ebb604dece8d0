//! `Tried`, which goes back to where it began if its parser backtracks.

ghost use Rattle.winnow_parser.specs.Answer.{ahead};
ghost use Rattle.winnow_combinator.specs.Appended.{Appending, AppendedErrors, IsParser-Appending};
ghost use Rattle.winnow_permutation.specs.Tried.{Tries, TriedErrors, IsParser-Tries};

use std::alloc::Global;
use winnow_error::ParserError;
use winnow_parser::{Failure, ModalResult, Parser};
use winnow_stream::StreamIsPartial;

// A parser that resets the stream where the inner one backtracks, and appends to its error.
#[derive(Clone, Copy)]
pub(crate) struct Tried<P> {
    pub(crate) inner: P,
}

impl<I: StreamIsPartial, E: ParserError<I>, P: Parser<I, E>> Parser<I, E> for Tried<P> {
    type Output = P::Output;

    ghost means = { λ p. Appending E.append_refusable (Tries (P.means p.inner)) };

    ghost errors = { λ p. AppendedErrors (ahead I.Checkpoint.location I.remained) E.append_gives
        (TriedErrors (ahead I.location I.remaining) (P.means p.inner) (P.errors p.inner)) };

    ghost ready = { λ p. P.ready p.inner };

    ghost lawful = { λ p.
        IsParser-Appending E.append_refusable (IsParser-Tries (P.lawful p.inner)) };

    fn parse_next(&self, alloc: Global, input: &mut I) -> ModalResult<P::Output, E> {
        let start = input.checkpoint();
        match self.inner.parse_next(alloc, input) {
            Err(Failure::Backtrack(error)) => {
                input.reset(&start);
                match error.append(alloc, input, &start) {
                    Ok(appended) => Err(Failure::Backtrack(appended)),
                    Err(refused) => Err(Failure::Refused(refused)),
                }
            }
            other => other,
        }
    }
}
