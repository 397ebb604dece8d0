ghost use Rattle.winnow_parser.specs.Meanings.{IsTerminated};
ghost use Rattle.winnow_parser.specs.Errors.{PairErrors};
ghost use Rattle.winnow_parser.specs.Parts.{IsParser-IsTerminated};

use std::alloc::Global;
use winnow_parser::{ModalResult, Parser};
use winnow_stream::StreamIsPartial;

/// A parser of two, one after the other, that gives the first value; [`terminated`] makes it.
#[derive(Clone, Copy, Drop)]
pub struct Terminated<A, B> {
    pub(crate) first: A,
    pub(crate) second: B,
}

impl<I: StreamIsPartial, E, A: Parser<I, E>, B: Parser<I, E>> Parser<I, E> for Terminated<A, B>
where
    A::Output: Drop,
    B::Output: Drop,
{
    type Output = A::Output;

    ghost means = { λ p. IsTerminated (A.means p.first) (B.means p.second) };

    ghost errors = { λ p. PairErrors (A.means p.first) (A.errors p.first) (B.errors p.second) };

    ghost ready = { λ p. A.ready p.first × B.ready p.second };

    ghost lawful = { λ p. IsParser-IsTerminated (A.means p.first) (B.means p.second)
        (A.lawful p.first) (B.lawful p.second) };

    #[inline(always)]
    fn parse_next(&self, alloc: Global, input: &mut I) -> ModalResult<A::Output, E> {
        match (&self.first, &self.second).parse_next(alloc, input) {
            Ok(both) => Ok(both.0),
            Err(failure) => Err(failure),
        }
    }
}
