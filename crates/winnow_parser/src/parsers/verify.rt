//! `Verify`, `VerifyMap` and `TryMap`: parsers that backtrack on some values of another.

ghost use Rattle.std.specs.Prelude.{◌≡◌, false};
ghost use Rattle.winnow_parser.specs.Meanings.{GivesOnly, Verifies};
ghost use Rattle.winnow_parser.specs.Errors.{UnwantedErrors};
ghost use Rattle.winnow_parser.specs.Parts.{IsParser-Verifies};

use crate::{Failure, ModalResult, Parser, ValueTest};
use std::alloc::Global;
use std::marker::PhantomData;
use winnow_error::ParserError;
use winnow_stream::StreamIsPartial;

/// A parser of the values of which a test holds; [`Parser::verify`] makes it.
#[derive(Drop)]
#[derive_where(Clone, Copy; P, F)]
pub struct Verify<P, F, By, I, E> {
    inner: P,
    test: F,
    parses: PhantomData<(By, I, E)>,
}

impl<P, F, By, I, E> Verify<P, F, By, I, E> {
    // Returns the parser of the values of which the test holds.
    pub(crate) fn new(inner: P, test: F) -> Self
        ensures inner { result.inner ≡ inner }
        ensures test { result.test ≡ test }
    {
        Verify {
            inner,
            test,
            parses: PhantomData,
        }
    }
}

impl<
    I: StreamIsPartial,
    E: ParserError<I>,
    P: Parser<I, E>,
    F: ValueTest<P::Output, By>,
    By,
> Parser<I, E> for Verify<P, F, By, I, E>
where
    P::Output: Drop,
{
    type Output = P::Output;

    ghost means = { λ p. Verifies (F.says p.test) (P.means p.inner) };

    ghost errors = { λ p. UnwantedErrors (λ x s e. F.says p.test x false × E.from_input_gives s e)
        (P.means p.inner) (P.errors p.inner) };

    ghost ready = { λ p. P.ready p.inner × GivesOnly (P.means p.inner) (F.may_ask p.test) };

    ghost lawful = { λ p. IsParser-Verifies (F.says p.test) (P.means p.inner) (P.lawful p.inner) };

    // Inlined: an answer that a call hands on is copied through memory.
    #[inline(always)]
    fn parse_next(&self, alloc: Global, input: &mut I) -> ModalResult<P::Output, E> {
        let start = input.checkpoint();
        let value = self.inner.parse_next(alloc, input)?;
        if self.test.holds_of(&value) {
            return Ok(value);
        }
        input.reset(&start);
        Err(Failure::Backtrack(E::from_input(alloc, input)))
    }
}
