ghost use Rattle.std.specs.Prelude.{◌≡◌, Err};
ghost use Rattle.winnow_parser.specs.Meanings.{GivesOnly, VerifyMaps, TriesTo};
ghost use Rattle.winnow_parser.specs.Errors.{UnwantedErrors};
ghost use Rattle.winnow_parser.specs.Parts.{IsParser-VerifyMaps};

use crate::{Failure, ModalResult, Parser};
use std::alloc::Global;
use std::marker::PhantomData;
use winnow_error::{FromExternalError, ParserError};
use winnow_stream::StreamIsPartial;

/// A parser of what a function makes of the value, if it does not fail; [`Parser::try_map`] makes
/// it.
#[derive(Drop)]
#[derive_where(Clone, Copy; P, F)]
pub struct TryMap<P, F, I, E> {
    inner: P,
    f: F,
    parses: PhantomData<(I, E)>,
}

impl<P, F, I, E> TryMap<P, F, I, E> {
    // Returns the parser of what the function makes of the value.
    pub(crate) fn new(inner: P, f: F) -> Self
        ensures inner { result.inner ≡ inner }
        ensures f { result.f ≡ f }
    {
        TryMap {
            inner,
            f,
            parses: PhantomData,
        }
    }
}

impl<
    I: StreamIsPartial,
    X,
    E: ParserError<I> + FromExternalError<I, X>,
    P: Parser<I, E>,
    O,
    F: Fn(P::Output) -> Result<O, X>,
> Parser<I, E> for TryMap<P, F, I, E> {
    type Output = O;

    ghost means = { λ p. VerifyMaps (TriesTo (F.post p.f)) (P.means p.inner) };

    ghost errors = { λ p. UnwantedErrors
        (λ x s e. (error : X) × (F.post p.f x (Err error) × E.from_external_gives s error e))
        (P.means p.inner) (P.errors p.inner) };

    ghost ready = { λ p. P.ready p.inner × GivesOnly (P.means p.inner) (F.pre p.f) };

    ghost lawful = { λ p.
        IsParser-VerifyMaps (TriesTo (F.post p.f)) (P.means p.inner) (P.lawful p.inner) };

    #[inline(always)]
    fn parse_next(&self, alloc: Global, input: &mut I) -> ModalResult<O, E> {
        let start = input.checkpoint();
        let value = self.inner.parse_next(alloc, input)?;
        match (self.f)(value) {
            Ok(made) => Ok(made),
            Err(error) => {
                input.reset(&start);
                Err(Failure::Backtrack(E::from_external_error(alloc, input, error)))
            }
        }
    }
}
