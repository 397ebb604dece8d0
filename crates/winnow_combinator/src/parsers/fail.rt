ghost use Rattle.winnow_parser.specs.Errors.{OwnErrors};
ghost use Rattle.winnow_combinator.specs.Ending.{IsFail, IsParser-IsFail};

use std::alloc::Global;
use std::fmt;
use std::marker::PhantomData;
use winnow_error::ParserError;
use winnow_parser::{Failure, ModalResult, Parser};
use winnow_stream::StreamIsPartial;

/// A parser that fails on each input, of values of any type; [`fail`] makes it.
#[derive_where(Clone, Copy)]
pub struct Fail<O> {
    pub(crate) value: PhantomData<O>,
}

impl<O> fmt::Debug for Fail<O> {
    fn fmt<W: fmt::Write>(&self, f: &mut fmt::Formatter<W>) -> fmt::Result {
        f.write_str("Fail")
    }
}

impl<I: StreamIsPartial, E: ParserError<I>, O> Parser<I, E> for Fail<O> {
    type Output = O;

    ghost means = { λ _. IsFail };

    ghost errors = { λ _. OwnErrors E.from_input_gives E.assert_gives };

    ghost ready = { λ _. Unit {0} };

    ghost lawful = { λ _. IsParser-IsFail };

    fn parse_next(&self, alloc: Global, input: &mut I) -> ModalResult<O, E> {
        Err(Failure::Backtrack(E::from_input(alloc, input)))
    }
}
