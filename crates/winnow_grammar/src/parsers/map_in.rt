//! `map_in` and `try_map_in`: `map` of a function that takes memory, and `try_map` of one whose
//! error prints.

ghost use Rattle.winnow_parser.specs.Errors.{AnyError};
ghost use Rattle.winnow_grammar.specs.AnyAnswer.{AnyAnswer, IsParser-AnyAnswer};

use crate::ask;
use std::alloc::{AllocError, Global};
use std::fmt::Display;
use winnow_error::{FromExternalError, ParserError};
use winnow_parser::{Failure, ModalResult, Parser};
use winnow_stream::StreamIsPartial;

/// A parser of what a function makes of a value in memory; [`map_in`] makes it.
#[derive(Clone, Copy, Drop)]
pub struct MapIn<P, F> {
    pub(crate) inner: P,
    pub(crate) f: F,
}

impl<
    I: StreamIsPartial,
    E,
    P: Parser<I, E>,
    O,
    F: Fn(Global, P::Output) -> Result<O, AllocError>,
> Parser<I, E> for MapIn<P, F> {
    type Output = O;

    ghost means = { λ _. AnyAnswer };

    ghost errors = { λ _. AnyError };

    ghost ready = { λ p. P.ready p.inner × F.IsAlwaysCallable p.f };

    ghost lawful = { λ _. IsParser-AnyAnswer };

    fn parse_next(&self, alloc: Global, input: &mut I) -> ModalResult<O, E> {
        match ask(alloc, input, &self.inner) {
            Ok(value) => match (self.f)(alloc, value) {
                Ok(made) => Ok(made),
                Err(refused) => Err(Failure::Refused(refused)),
            },
            Err(failure) => Err(failure),
        }
    }
}

/// A parser of what a function that may fail makes of a value; [`try_map_in`] makes it.
#[derive(Clone, Copy, Drop)]
pub struct TryMapIn<P, F> {
    pub(crate) inner: P,
    pub(crate) f: F,
}

impl<
    I: StreamIsPartial,
    X: Display + Drop,
    E: ParserError<I> + FromExternalError<I, String>,
    P: Parser<I, E>,
    O,
    F: Fn(P::Output) -> Result<O, X>,
> Parser<I, E> for TryMapIn<P, F> {
    type Output = O;

    ghost means = { λ _. AnyAnswer };

    ghost errors = { λ _. AnyError };

    ghost ready = { λ p. P.ready p.inner × F.IsAlwaysCallable p.f };

    ghost lawful = { λ _. IsParser-AnyAnswer };

    fn parse_next(&self, alloc: Global, input: &mut I) -> ModalResult<O, E> {
        let start = input.checkpoint();
        match ask(alloc, input, &self.inner) {
            Ok(value) => match (self.f)(value) {
                Ok(made) => Ok(made),
                Err(error) => {
                    input.reset(&start);
                    match error.to_string(alloc) {
                        Ok(text) => {
                            Err(Failure::Backtrack(E::from_external_error(alloc, input, text)))
                        }
                        Err(refused) => Err(Failure::Refused(refused)),
                    }
                }
            },
            Err(failure) => Err(failure),
        }
    }
}
