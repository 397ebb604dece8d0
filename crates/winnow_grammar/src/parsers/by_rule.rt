//! `Rule`, the meaning of a function that parses, and `by_rule`, which makes a parser of both.

ghost use Rattle.winnow_parser.specs.Outcome.{Meaning};
ghost use Rattle.winnow_parser.specs.Answer.{ahead};
ghost use Rattle.winnow_parser.specs.Errors.{ContractErrors};
ghost use Rattle.winnow_parser.specs.Laws.{IsParser};
ghost use Rattle.winnow_parser.specs.Following.{Follows};

use std::alloc::Global;
use winnow_parser::{ModalResult, Parser};
use winnow_stream::StreamIsPartial;

/// A rule of a grammar: a value that says what a function reads, so that [`by_rule`] makes a parser
/// of the function.
pub trait Rule<I: StreamIsPartial> {
    /// What it reads.
    type Output;

    // What it may answer, by what stands at the front.
    ghost meaning: { Self → Meaning Self.Output I.Token };

    /// Does nothing: a rule is there for its meaning alone.
    fn rule(&self) {}

    // It keeps the laws of a parser.
    ghost lawful: { (rule : Self) → IsParser (meaning rule) };
}

/// A function that reads what a rule says; [`by_rule`] makes it.
#[derive(Clone, Copy, Drop)]
pub struct ByRule<R, F> {
    pub(crate) rule: R,
    pub(crate) read: F,
}

impl<I: StreamIsPartial, E, R: Rule<I>, F: Fn(Global, &mut I) -> ModalResult<R::Output, E>> Parser<
    I,
    E,
> for ByRule<R, F> {
    type Output = R::Output;

    ghost means = { λ p. R.meaning p.rule };

    ghost errors = { λ p. ContractErrors F.Fn I.valid I.expects_more
        (ahead I.location I.remaining) p.read };

    ghost ready = { λ p. Follows F.Fn I.valid I.keeps I.expects_more
        (ahead I.location I.remaining) (R.meaning p.rule) p.read };

    ghost lawful = { λ p. R.lawful p.rule };

    fn parse_next(&self, alloc: Global, input: &mut I) -> ModalResult<R::Output, E> {
        (self.read)(alloc, input)
    }
}
