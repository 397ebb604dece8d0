//! Named parts of a grammar: `Reads`, and `part`, which makes a parser of one.

ghost use Rattle.winnow_parser.specs.Outcome.{Moves};
ghost use Rattle.winnow_parser.specs.Answer.{ahead, outcome};
ghost use Rattle.winnow_parser.specs.Errors.{AnyError};
ghost use Rattle.winnow_grammar.specs.AnyAnswer.{AnyAnswer, IsParser-AnyAnswer};

use std::alloc::Global;
use winnow_parser::{ModalResult, Parser};
use winnow_stream::StreamIsPartial;

/// A part of a grammar that has a name, and promises no more than each parser does.
pub trait Reads<I: StreamIsPartial, E> {
    /// What it reads.
    type Output;

    // The parts that may be asked. A part that holds a parser has that of the parser.
    ghost ready: { Self → Type 0 } = { λ _. Unit {0} };

    /// Reads it from the front of the stream.
    fn read(&self, alloc: Global, input: &mut I) -> ModalResult<Self::Output, E>
        requires ready { ready self.now }
        requires valid { I.valid input.old }
        ensures answer { AnyAnswer (I.expects_more input.old)
            (ahead I.location I.remaining input.old)
            (outcome result (ahead I.location I.remaining input.new)) }
        ensures onward { Moves (ahead I.location I.remaining input.old)
            (ahead I.location I.remaining input.new) }
        ensures valid { I.valid input.new }
        ensures kept { I.keeps input.old input.new };
}

/// The parser of a part of a grammar; [`part`] makes it.
#[derive(Clone, Copy, Drop)]
pub struct Part<R> {
    pub(crate) reads: R,
}

impl<I: StreamIsPartial, E, R: Reads<I, E>> Parser<I, E> for Part<R> {
    type Output = R::Output;

    ghost means = { λ _. AnyAnswer };

    ghost errors = { λ _. AnyError };

    ghost ready = { λ p. R.ready p.reads };

    ghost lawful = { λ _. IsParser-AnyAnswer };

    fn parse_next(&self, alloc: Global, input: &mut I) -> ModalResult<R::Output, E> {
        self.reads.read(alloc, input)
    }
}
