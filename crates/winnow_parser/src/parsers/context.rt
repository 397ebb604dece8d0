//! `Context`, which adds a context to the errors of a parser.

ghost use Rattle.std.specs.Prelude.{◌≡◌};
ghost use Rattle.winnow_parser.specs.Answer.{ahead};
ghost use Rattle.winnow_parser.specs.Errors.{ContextErrors};
ghost use Rattle.winnow_parser.specs.Context.{InContext, IsParser-InContext};

use crate::{Failure, ModalResult, Parser};
use std::alloc::Global;
use std::marker::PhantomData;
use winnow_error::AddContext;
use winnow_stream::StreamIsPartial;

/// A parser that adds to its errors what was being read; [`Parser::context`] makes it.
#[derive(Drop)]
#[derive_where(Clone, Copy; P, C)]
pub struct Context<P, C, I, E> {
    inner: P,
    context: C,
    parses: PhantomData<(I, E)>,
}

impl<P, C, I, E> Context<P, C, I, E> {
    // Returns the parser that adds the context to its errors.
    pub(crate) fn new(inner: P, context: C) -> Self
        ensures inner { result.inner ≡ inner }
        ensures context { result.context ≡ context }
    {
        Context {
            inner,
            context,
            parses: PhantomData,
        }
    }
}

impl<I: StreamIsPartial, C: Copy, E: AddContext<I, C>, P: Parser<I, E>> Parser<I, E>
    for Context<P, C, I, E> {
    type Output = P::Output;

    ghost means = { λ p. InContext E.add_context_refusable (P.means p.inner) };

    ghost errors = { λ p. ContextErrors (ahead I.Checkpoint.location I.remained)
        (λ e s start. E.add_context_gives e s start p.context) (P.errors p.inner) };

    ghost ready = { λ p. P.ready p.inner };

    ghost lawful = { λ p.
        IsParser-InContext E.add_context_refusable (P.means p.inner) (P.lawful p.inner) };

    fn parse_next(&self, alloc: Global, input: &mut I) -> ModalResult<P::Output, E> {
        let start = input.checkpoint();
        match self.inner.parse_next(alloc, input) {
            Ok(value) => Ok(value),
            Err(Failure::Backtrack(error)) => {
                match error.add_context(alloc, input, &start, self.context) {
                    Ok(told) => Err(Failure::Backtrack(told)),
                    Err(refused) => Err(Failure::Refused(refused)),
                }
            }
            Err(Failure::Cut(error)) => {
                match error.add_context(alloc, input, &start, self.context) {
                    Ok(told) => Err(Failure::Cut(told)),
                    Err(refused) => Err(Failure::Refused(refused)),
                }
            }
            Err(Failure::Incomplete(needed)) => Err(Failure::Incomplete(needed)),
            Err(Failure::Refused(refused)) => Err(Failure::Refused(refused)),
        }
    }
}
