//! Grammars that contain themselves: `Layer`, and `nested`, which reads one to a depth.

ghost use Rattle.std.specs.Prelude.{◌-◌, ◌<◌};
ghost use Rattle.winnow_parser.specs.Outcome.{Moves};
ghost use Rattle.winnow_parser.specs.Answer.{ahead, outcome};
ghost use Rattle.winnow_parser.specs.Errors.{AnyError};
ghost use Rattle.winnow_grammar.specs.AnyAnswer.{AnyAnswer, IsParser-AnyAnswer};

use crate::{from_fn, nested};
use std::alloc::Global;
use winnow_error::ParserError;
use winnow_parser::{Failure, ModalResult, Parser};
use winnow_stream::StreamIsPartial;

/// A grammar that contains itself, such as that of expressions with parentheses.
pub trait Layer<I: StreamIsPartial, E> {
    /// What it reads.
    type Output;

    // The grammars that may be asked. One that holds a parser has that of the parser.
    ghost ready: { Self → Type 0 } = { λ _. Unit {0} };

    /// Reads one layer from the front of the stream; `inner` reads what lies inside.
    fn read<P: Parser<I, E, Output = Self::Output> + Copy + Drop>(
        &self,
        alloc: Global,
        input: &mut I,
        inner: P,
    ) -> ModalResult<Self::Output, E>
        requires ready { ready self.now }
        requires inner { P.ready inner }
        requires valid { I.valid input.old }
        ensures answer { AnyAnswer (I.expects_more input.old)
            (ahead I.location I.remaining input.old)
            (outcome result (ahead I.location I.remaining input.new)) }
        ensures onward { Moves (ahead I.location I.remaining input.old)
            (ahead I.location I.remaining input.new) }
        ensures valid { I.valid input.new }
        ensures kept { I.keeps input.old input.new };
}

/// A grammar that contains itself, to a depth; [`nested`] makes it.
#[derive(Clone, Copy, Drop)]
pub struct Nested<L> {
    pub(crate) layer: L,
    pub(crate) depth: usize,
}

#[cycle(nested)]
fn read_nested<I: StreamIsPartial, X, E: ParserError<I, Inner = X>, L: Layer<I, E>>(
    layer: &L,
    alloc: Global,
    input: &mut I,
    depth: usize,
) -> ModalResult<L::Output, E>
    requires ready { L.ready layer.now }
    requires valid { I.valid input.old }
    ensures answer { AnyAnswer (I.expects_more input.old) (ahead I.location I.remaining input.old)
        (outcome result (ahead I.location I.remaining input.new)) }
    ensures onward { Moves (ahead I.location I.remaining input.old)
        (ahead I.location I.remaining input.new) }
    ensures valid { I.valid input.new }
    ensures kept { I.keeps input.old input.new }
{
    if depth == 0 {
        return too_deep(alloc, input);
    }
    let inner = |alloc: Global, input: &mut I| -> ModalResult<L::Output, E>
        requires ready { L.ready layer.now }
        requires valid { I.valid input.old }
        requires deep { 0 < depth }
        ensures answer { AnyAnswer (I.expects_more input.old)
            (ahead I.location I.remaining input.old)
            (outcome result (ahead I.location I.remaining input.new)) }
        ensures onward { Moves (ahead I.location I.remaining input.old)
            (ahead I.location I.remaining input.new) }
        ensures valid { I.valid input.new }
        ensures kept { I.keeps input.old input.new }
    { read_nested(layer, alloc, input, depth - 1) };
    let inner = from_fn(inner);
    layer.read(alloc, input, &inner)
}

// Cuts.
fn too_deep<I: StreamIsPartial, O, E: ParserError<I>>(
    alloc: Global,
    input: &mut I,
) -> ModalResult<O, E>
    requires { I.valid input.old }
    ensures answer { AnyAnswer (I.expects_more input.old) (ahead I.location I.remaining input.old)
        (outcome result (ahead I.location I.remaining input.new)) }
    ensures onward { Moves (ahead I.location I.remaining input.old)
        (ahead I.location I.remaining input.new) }
    ensures valid { I.valid input.new }
    ensures kept { I.keeps input.old input.new }
{
    Err(Failure::Cut(E::from_input(alloc, input)))
}

impl<I: StreamIsPartial, X, E: ParserError<I, Inner = X>, L: Layer<I, E>> Parser<I, E>
    for Nested<L> {
    type Output = L::Output;

    ghost means = { λ _. AnyAnswer };

    ghost errors = { λ _. AnyError };

    ghost ready = { λ p. L.ready p.layer };

    ghost lawful = { λ _. IsParser-AnyAnswer };

    fn parse_next(&self, alloc: Global, input: &mut I) -> ModalResult<L::Output, E> {
        read_nested(&self.layer, alloc, input, self.depth)
    }
}
