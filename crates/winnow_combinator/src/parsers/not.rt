ghost use Rattle.winnow_parser.specs.Meanings.{IsNot};
ghost use Rattle.winnow_parser.specs.Errors.{UnwantedErrors};
ghost use Rattle.winnow_parser.specs.Parts.{IsParser-IsNot};

use std::alloc::Global;
use winnow_error::ParserError;
use winnow_parser::{Failure, ModalResult, Parser};
use winnow_stream::StreamIsPartial;

/// A parser that succeeds where the inner one backtracks; [`not`] makes it.
#[derive(Clone, Copy, Drop)]
pub struct Not<P> {
    pub(crate) inner: P,
}

impl<I: StreamIsPartial, E: ParserError<I>, P: Parser<I, E>> Parser<I, E> for Not<P>
where
    P::Output: Drop,
{
    type Output = ();

    ghost means = { λ p. IsNot (P.means p.inner) };

    ghost errors = { λ p.
        UnwantedErrors (λ _. E.from_input_gives) (P.means p.inner) (P.errors p.inner) };

    ghost ready = { λ p. P.ready p.inner };

    ghost lawful = { λ p. IsParser-IsNot (P.means p.inner) (P.lawful p.inner) };

    fn parse_next(&self, alloc: Global, input: &mut I) -> ModalResult<(), E> {
        let start = input.checkpoint();
        match self.inner.parse_next(alloc, input) {
            Ok(_) => {
                input.reset(&start);
                Err(Failure::Backtrack(E::from_input(alloc, input)))
            }
            Err(Failure::Backtrack(_)) => {
                input.reset(&start);
                Ok(())
            }
            Err(Failure::Cut(error)) => Err(Failure::Cut(error)),
            Err(Failure::Incomplete(needed)) => Err(Failure::Incomplete(needed)),
            Err(Failure::Refused(refused)) => Err(Failure::Refused(refused)),
        }
    }
}
