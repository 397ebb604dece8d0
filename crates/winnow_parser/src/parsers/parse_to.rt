//! `ParseTo`: a parser of what the value of another reads as.

ghost use Rattle.std.specs.Prelude.{◌≡◌, None};
ghost use Rattle.winnow_count.specs.Reading.{IsSomeExactly};
ghost use Rattle.winnow_parser.specs.Errors.{UnwantedErrors};
ghost use Rattle.winnow_parser.specs.Meanings.{VerifyMaps};
ghost use Rattle.winnow_parser.specs.Parts.{IsParser-VerifyMaps};

use crate::{Failure, ModalResult, Parser};
use std::alloc::Global;
use std::marker::PhantomData;
use winnow_count::ParseSlice;
use winnow_error::ParserError;
use winnow_stream::StreamIsPartial;

/// A parser of what the value of the inner one reads as; [`Parser::parse_to`] makes it.
#[derive(Drop)]
#[derive_where(Clone, Copy; P)]
pub struct ParseTo<P, R, I, E> {
    inner: P,
    parses: PhantomData<(R, I, E)>,
}

impl<P, R, I, E> ParseTo<P, R, I, E> {
    // Returns the parser of what the value reads as.
    pub(crate) fn new(inner: P) -> Self
        ensures inner { result.inner ≡ inner }
    {
        ParseTo {
            inner,
            parses: PhantomData,
        }
    }
}

impl<I: StreamIsPartial, E: ParserError<I>, P: Parser<I, E>, R> Parser<I, E> for ParseTo<P, R, I, E>
where
    P::Output: ParseSlice<R> + Drop,
{
    type Output = R;

    ghost means = { λ p.
        VerifyMaps (λ slice value. IsSomeExactly (P.Output.reads slice) value) (P.means p.inner) };

    ghost errors = { λ p. UnwantedErrors
        (λ slice s e. IsSomeExactly (P.Output.reads slice) None × E.from_input_gives s e)
        (P.means p.inner) (P.errors p.inner) };

    ghost ready = { λ p. P.ready p.inner };

    ghost lawful = { λ p.
        IsParser-VerifyMaps (λ slice value. IsSomeExactly (P.Output.reads slice) value)
        (P.means p.inner) (P.lawful p.inner) };

    // Inlined: an answer that a call hands on is copied through memory.
    #[inline(always)]
    fn parse_next(&self, alloc: Global, input: &mut I) -> ModalResult<R, E> {
        let start = input.checkpoint();
        let slice = self.inner.parse_next(alloc, input)?;
        match slice.parse_slice() {
            Some(value) => Ok(value),
            None => {
                input.reset(&start);
                Err(Failure::Backtrack(E::from_input(alloc, input)))
            }
        }
    }
}
