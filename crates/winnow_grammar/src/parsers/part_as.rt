//! Named parts that have a spelling: `ReadsAs` and `part_as`.

ghost use Rattle.winnow_parser.specs.Outcome.{Moves};
ghost use Rattle.winnow_parser.specs.Answer.{ahead, outcome};
ghost use Rattle.winnow_parser.specs.Errors.{AnyError};
ghost use Rattle.winnow_grammar.specs.Spelling.{Spelling};
ghost use Rattle.winnow_grammar.specs.Spelt.{Spelt, IsParser-Spelt, spelled-Spelt};

use crate::Spells;
use std::alloc::Global;
use winnow_parser::{ModalResult, Parser};
use winnow_stream::StreamIsPartial;

/// A part of a grammar that says which tokens spell what it reads.
pub trait ReadsAs<I: StreamIsPartial, E> {
    /// What it reads.
    type Output;

    // The tokens that spell each value.
    ghost spells: { Self → Spelling Self.Output I.Token };

    // The parts that may be asked. A part that holds a parser has that of the parser.
    ghost ready: { Self → Type 0 } = { λ _. Unit {0} };

    /// Reads it from the front of the stream.
    fn read(&self, alloc: Global, input: &mut I) -> ModalResult<Self::Output, E>
        requires ready { ready self.now }
        requires valid { I.valid input.old }
        ensures answer { Spelt (spells self.now) (I.expects_more input.old)
            (ahead I.location I.remaining input.old)
            (outcome result (ahead I.location I.remaining input.new)) }
        ensures onward { Moves (ahead I.location I.remaining input.old)
            (ahead I.location I.remaining input.new) }
        ensures valid { I.valid input.new }
        ensures kept { I.keeps input.old input.new };
}

/// The parser of a part of a grammar; [`part_as`] makes it.
#[derive(Clone, Copy, Drop)]
pub struct PartAs<R> {
    pub(crate) reads: R,
}

impl<I: StreamIsPartial, E, R: ReadsAs<I, E>> Parser<I, E> for PartAs<R> {
    type Output = R::Output;

    ghost means = { λ p. Spelt (R.spells p.reads) };

    ghost errors = { λ _. AnyError };

    ghost ready = { λ p. R.ready p.reads };

    ghost lawful = { λ p. IsParser-Spelt (R.spells p.reads) };

    fn parse_next(&self, alloc: Global, input: &mut I) -> ModalResult<R::Output, E> {
        self.reads.read(alloc, input)
    }
}

impl<I: StreamIsPartial, E, R: ReadsAs<I, E>> Spells<I, E> for PartAs<R> {
    ghost spells = { λ p. R.spells p.reads };

    ghost spelled = { λ p. spelled-Spelt (R.spells p.reads) };
}
