//! `preceded`, `terminated`, `delimited` and `separated_pair`: sequences that drop some values.

ghost use Rattle.winnow_parser.specs.Meanings.{IsPreceded};
ghost use Rattle.winnow_parser.specs.Errors.{PairErrors};
ghost use Rattle.winnow_parser.specs.Parts.{IsParser-IsPreceded};

use std::alloc::Global;
use winnow_parser::{ModalResult, Parser};
use winnow_stream::StreamIsPartial;

/// A parser of two, one after the other, that gives the second value; [`preceded`] makes it.
#[derive(Clone, Copy, Drop)]
pub struct Preceded<A, B> {
    pub(crate) first: A,
    pub(crate) second: B,
}

impl<I: StreamIsPartial, E, A: Parser<I, E>, B: Parser<I, E>> Parser<I, E> for Preceded<A, B>
where
    A::Output: Drop,
{
    type Output = B::Output;

    ghost means = { λ p. IsPreceded (A.means p.first) (B.means p.second) };

    ghost errors = { λ p. PairErrors (A.means p.first) (A.errors p.first) (B.errors p.second) };

    ghost ready = { λ p. A.ready p.first × B.ready p.second };

    ghost lawful = { λ p. IsParser-IsPreceded (A.means p.first) (B.means p.second)
        (A.lawful p.first) (B.lawful p.second) };

    #[inline(always)]
    fn parse_next(&self, alloc: Global, input: &mut I) -> ModalResult<B::Output, E> {
        match (&self.first, &self.second).parse_next(alloc, input) {
            Ok(both) => Ok(both.1),
            Err(failure) => Err(failure),
        }
    }
}
