ghost use Rattle.std.specs.Prelude.{◌≡◌, None};
ghost use Rattle.winnow_parser.specs.Meanings.{GivesOnly, VerifyMaps};
ghost use Rattle.winnow_parser.specs.Errors.{UnwantedErrors};
ghost use Rattle.winnow_parser.specs.Parts.{IsParser-VerifyMaps};

use crate::{Failure, ModalResult, Parser};
use std::alloc::Global;
use std::marker::PhantomData;
use winnow_error::ParserError;
use winnow_stream::StreamIsPartial;

/// A parser of what a function makes of the value, if it makes something; [`Parser::verify_map`]
/// makes it.
#[derive(Drop)]
#[derive_where(Clone, Copy; P, F)]
pub struct VerifyMap<P, F, I, E> {
    inner: P,
    f: F,
    parses: PhantomData<(I, E)>,
}

impl<P, F, I, E> VerifyMap<P, F, I, E> {
    // Returns the parser of what the function makes of the value.
    pub(crate) fn new(inner: P, f: F) -> Self
        ensures inner { result.inner ≡ inner }
        ensures f { result.f ≡ f }
    {
        VerifyMap {
            inner,
            f,
            parses: PhantomData,
        }
    }
}

impl<
    I: StreamIsPartial,
    E: ParserError<I>,
    P: Parser<I, E>,
    O,
    F: Fn(P::Output) -> Option<O>,
> Parser<I, E> for VerifyMap<P, F, I, E> {
    type Output = O;

    ghost means = { λ p. VerifyMaps (F.post p.f) (P.means p.inner) };

    ghost errors = { λ p. UnwantedErrors (λ x s e. F.post p.f x None × E.from_input_gives s e)
        (P.means p.inner) (P.errors p.inner) };

    ghost ready = { λ p. P.ready p.inner × GivesOnly (P.means p.inner) (F.pre p.f) };

    ghost lawful = { λ p. IsParser-VerifyMaps (F.post p.f) (P.means p.inner) (P.lawful p.inner) };

    #[inline(always)]
    fn parse_next(&self, alloc: Global, input: &mut I) -> ModalResult<O, E> {
        let start = input.checkpoint();
        let value = self.inner.parse_next(alloc, input)?;
        match (self.f)(value) {
            Some(made) => Ok(made),
            None => {
                input.reset(&start);
                Err(Failure::Backtrack(E::from_input(alloc, input)))
            }
        }
    }
}
