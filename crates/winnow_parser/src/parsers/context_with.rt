//! `ContextWith`, which adds to the errors of a parser a context that a function makes.

ghost use Rattle.std.specs.Prelude.{◌≡◌};
ghost use Rattle.winnow_parser.specs.Answer.{ahead};
ghost use Rattle.winnow_parser.specs.Errors.{ContextErrors};
ghost use Rattle.winnow_parser.specs.Context.{InContext, IsParser-InContext};

use crate::{Failure, ModalResult, Parser};
use std::alloc::Global;
use std::marker::PhantomData;
use winnow_error::AddContext;
use winnow_stream::StreamIsPartial;

/// A parser that adds to its errors a context that a function makes; [`Parser::context_with`] makes
/// it.
#[derive(Drop)]
#[derive_where(Clone, Copy; P, F)]
pub struct ContextWith<P, F, I, E> {
    inner: P,
    f: F,
    parses: PhantomData<(I, E)>,
}

impl<P, F, I, E> ContextWith<P, F, I, E> {
    // Returns the parser that adds what the function makes to its errors.
    pub(crate) fn new(inner: P, f: F) -> Self
        ensures inner { result.inner ≡ inner }
        ensures f { result.f ≡ f }
    {
        ContextWith {
            inner,
            f,
            parses: PhantomData,
        }
    }
}

impl<I: StreamIsPartial, C, E: AddContext<I, C>, P: Parser<I, E>, F: Fn() -> C> Parser<I, E>
    for ContextWith<P, F, I, E> {
    type Output = P::Output;

    ghost means = { λ p. InContext E.add_context_refusable (P.means p.inner) };

    ghost errors = { λ p. ContextErrors (ahead I.Checkpoint.location I.remained)
        (λ e s start told. (context : C)
        × (F.post p.f context × E.add_context_gives e s start context told)) (P.errors p.inner) };

    ghost ready = { λ p. P.ready p.inner × F.IsAlwaysCallable p.f };

    ghost lawful = { λ p.
        IsParser-InContext E.add_context_refusable (P.means p.inner) (P.lawful p.inner) };

    fn parse_next(&self, alloc: Global, input: &mut I) -> ModalResult<P::Output, E> {
        let start = input.checkpoint();
        match self.inner.parse_next(alloc, input) {
            Ok(value) => Ok(value),
            Err(Failure::Backtrack(error)) => {
                match error.add_context(alloc, input, &start, (self.f)()) {
                    Ok(told) => Err(Failure::Backtrack(told)),
                    Err(refused) => Err(Failure::Refused(refused)),
                }
            }
            Err(Failure::Cut(error)) => match error.add_context(alloc, input, &start, (self.f)()) {
                Ok(told) => Err(Failure::Cut(told)),
                Err(refused) => Err(Failure::Refused(refused)),
            },
            Err(Failure::Incomplete(needed)) => Err(Failure::Incomplete(needed)),
            Err(Failure::Refused(refused)) => Err(Failure::Refused(refused)),
        }
    }
}
