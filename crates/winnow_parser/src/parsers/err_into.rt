//! `ErrInto`, which converts the errors of a parser.

ghost use Rattle.std.specs.Prelude.{◌≡◌};
ghost use Rattle.winnow_parser.specs.Errors.{MapErrors};

use crate::{Failure, ModalResult, Parser};
use std::alloc::Global;
use std::marker::PhantomData;
use winnow_stream::StreamIsPartial;

/// A parser that converts the errors of the inner one; [`Parser::err_into`] makes it.
#[derive(Drop)]
#[derive_where(Clone, Copy; P)]
pub struct ErrInto<P, E2, I, E> {
    inner: P,
    parses: PhantomData<(E2, I, E)>,
}

impl<P, E2, I, E> ErrInto<P, E2, I, E> {
    // Returns the parser that converts the errors.
    pub(crate) fn new(inner: P) -> Self
        ensures inner { result.inner ≡ inner }
    {
        ErrInto {
            inner,
            parses: PhantomData,
        }
    }
}

impl<I: StreamIsPartial, E: Into<E2>, E2, P: Parser<I, E>> Parser<I, E2> for ErrInto<P, E2, I, E> {
    type Output = P::Output;

    ghost means = { λ p. P.means p.inner };

    ghost errors = { λ p. MapErrors E.converts (P.errors p.inner) };

    ghost ready = { λ p. P.ready p.inner };

    ghost lawful = { λ p. P.lawful p.inner };

    #[inline(always)]
    fn parse_next(&self, alloc: Global, input: &mut I) -> ModalResult<P::Output, E2> {
        match self.inner.parse_next(alloc, input) {
            Ok(value) => Ok(value),
            Err(Failure::Backtrack(error)) => Err(Failure::Backtrack(error.into())),
            Err(Failure::Cut(error)) => Err(Failure::Cut(error.into())),
            Err(Failure::Incomplete(needed)) => Err(Failure::Incomplete(needed)),
            Err(Failure::Refused(refused)) => Err(Failure::Refused(refused)),
        }
    }
}
