//! `Chosen`: one of two parsers of one type of values.

ghost use Rattle.winnow_macros.specs.Chosen.{IsChosen, ChosenErrors, IsReadyChosen};
ghost use Rattle.winnow_macros.specs.Chosen.{IsParser-IsChosen};

use std::alloc::Global;
use winnow_parser::{ModalResult, Parser};
use winnow_stream::StreamIsPartial;

/// One of two parsers of values of one type.
#[derive(Clone, Copy, Debug, Drop)]
pub enum Chosen<A, B> {
    /// The first
    First(A),
    /// The other
    Other(B),
}

impl<I: StreamIsPartial, E, A: Parser<I, E>, B: Parser<I, E, Output = A::Output>> Parser<I, E>
    for Chosen<A, B> {
    type Output = A::Output;

    ghost means = { IsChosen A.means B.means };

    ghost errors = { ChosenErrors A.errors B.errors };

    ghost ready = { IsReadyChosen A.ready B.ready };

    ghost lawful = { IsParser-IsChosen A.lawful B.lawful };

    fn parse_next(&self, alloc: Global, input: &mut I) -> ModalResult<A::Output, E> {
        match self {
            Chosen::First(parser) => parser.parse_next(alloc, input),
            Chosen::Other(parser) => parser.parse_next(alloc, input),
        }
    }
}
