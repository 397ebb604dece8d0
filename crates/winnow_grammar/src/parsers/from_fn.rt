//! `from_fn`, which makes a parser of a function.

ghost use Rattle.winnow_parser.specs.Answer.{ahead};
ghost use Rattle.winnow_parser.specs.Errors.{ContractErrors};
ghost use Rattle.winnow_parser.specs.Following.{Follows};
ghost use Rattle.winnow_grammar.specs.AnyAnswer.{AnyAnswer, IsParser-AnyAnswer};

use std::alloc::Global;
use winnow_parser::{ModalResult, Parser};
use winnow_stream::StreamIsPartial;

/// A function as a parser; [`from_fn`] makes it.
#[derive(Clone, Copy, Drop)]
pub struct FromFn<F> {
    pub(crate) read: F,
}

impl<I: StreamIsPartial, E, O, F: Fn(Global, &mut I) -> ModalResult<O, E>> Parser<I, E>
    for FromFn<F> {
    type Output = O;

    ghost means = { λ _. AnyAnswer };

    ghost errors = { λ p. ContractErrors F.Fn I.valid I.expects_more
        (ahead I.location I.remaining) p.read };

    ghost ready = { λ p. Follows F.Fn I.valid I.keeps I.expects_more
        (ahead I.location I.remaining) AnyAnswer p.read };

    ghost lawful = { λ _. IsParser-AnyAnswer };

    fn parse_next(&self, alloc: Global, input: &mut I) -> ModalResult<O, E> {
        (self.read)(alloc, input)
    }
}
