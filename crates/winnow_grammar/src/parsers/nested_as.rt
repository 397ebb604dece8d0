//! Grammars that contain themselves and have a spelling: `LayerAs` and `nested_as`.

ghost use Rattle.std.specs.Prelude.{◌-◌, ◌<◌};
ghost use Rattle.winnow_parser.specs.Answer.{ahead, outcome};
ghost use Rattle.winnow_parser.specs.Errors.{AnyError};
ghost use Rattle.winnow_parser.specs.Following.{Follows};
ghost use Rattle.winnow_parser.specs.Outcome.{Moves};
ghost use Rattle.winnow_grammar.specs.Spelling.{Spelling, IsWithin};
ghost use Rattle.winnow_grammar.specs.Spelt.{Spelt, IsParser-Spelt, spelled-Spelt};

use crate::Spells;
use std::alloc::Global;
use winnow_error::ParserError;
use winnow_parser::{Failure, ModalResult, Parser};
use winnow_stream::StreamIsPartial;

/// A grammar that contains itself, and that says which tokens spell what it reads.
pub trait LayerAs<I: StreamIsPartial, E> {
    /// What it reads.
    type Output;

    // The tokens that spell each value.
    ghost spells: { Self → Spelling Self.Output I.Token };

    // The grammars that may be asked. One that holds a parser has that of the parser.
    ghost ready: { Self → Type 0 } = { λ _. Unit {0} };

    /// Reads one layer from the front of the stream; `inner` reads what lies inside, which is
    /// spelled alike.
    fn read<P: Spells<I, E, Output = Self::Output> + Copy + Drop>(
        &self,
        alloc: Global,
        input: &mut I,
        inner: P,
    ) -> ModalResult<Self::Output, E>
        requires ready { ready self.now }
        requires inner { P.ready inner }
        requires inside { IsWithin (P.spells inner) (spells self.now) }
        requires valid { I.valid input.old }
        ensures answer { Spelt (spells self.now) (I.expects_more input.old)
            (ahead I.location I.remaining input.old)
            (outcome result (ahead I.location I.remaining input.new)) }
        ensures onward { Moves (ahead I.location I.remaining input.old)
            (ahead I.location I.remaining input.new) }
        ensures valid { I.valid input.new }
        ensures kept { I.keeps input.old input.new };
}

/// A grammar that contains itself, to a depth; [`nested_as`] makes it.
#[derive(Clone, Copy, Drop)]
pub struct NestedAs<L> {
    pub(crate) layer: L,
    pub(crate) depth: usize,
}

// What lies inside a layer.
#[derive_where(Clone, Copy; F)]
struct Inside<'a, L, F> {
    layer: &'a L,
    read: F,
}

impl<
    I: StreamIsPartial,
    E,
    L: LayerAs<I, E>,
    F: Fn(Global, &mut I) -> ModalResult<L::Output, E>,
> Parser<I, E> for Inside<'_, L, F> {
    type Output = L::Output;

    ghost means = { λ p. Spelt (L.spells p.layer.now) };

    ghost errors = { λ _. AnyError };

    ghost ready = { λ p. Follows F.Fn I.valid I.keeps I.expects_more
        (ahead I.location I.remaining) (Spelt (L.spells p.layer.now)) p.read };

    ghost lawful = { λ p. IsParser-Spelt (L.spells p.layer.now) };

    fn parse_next(&self, alloc: Global, input: &mut I) -> ModalResult<L::Output, E> {
        (self.read)(alloc, input)
    }
}

impl<
    I: StreamIsPartial,
    E,
    L: LayerAs<I, E>,
    F: Fn(Global, &mut I) -> ModalResult<L::Output, E>,
> Spells<I, E> for Inside<'_, L, F> {
    ghost spells = { λ p. L.spells p.layer.now };

    ghost spelled = { λ p. spelled-Spelt (L.spells p.layer.now) };

    // The check states a bound on a function of a block that has a method.
    fn this(&self) -> &Self {
        self
    }
}

#[cycle(nested_as)]
fn read_nested_as<I: StreamIsPartial, X, E: ParserError<I, Inner = X>, L: LayerAs<I, E>>(
    layer: &L,
    alloc: Global,
    input: &mut I,
    depth: usize,
) -> ModalResult<L::Output, E>
    requires ready { L.ready layer.now }
    requires valid { I.valid input.old }
    ensures answer { Spelt (L.spells layer.now) (I.expects_more input.old)
        (ahead I.location I.remaining input.old)
        (outcome result (ahead I.location I.remaining input.new)) }
    ensures onward { Moves (ahead I.location I.remaining input.old)
        (ahead I.location I.remaining input.new) }
    ensures valid { I.valid input.new }
    ensures kept { I.keeps input.old input.new }
{
    if depth == 0 {
        return too_deep(layer, alloc, input);
    }
    let read = |alloc: Global, input: &mut I| -> ModalResult<L::Output, E>
        requires ready { L.ready layer.now }
        requires valid { I.valid input.old }
        requires deep { 0 < depth }
        ensures answer { Spelt (L.spells layer.entry.now) (I.expects_more input.old)
            (ahead I.location I.remaining input.old)
            (outcome result (ahead I.location I.remaining input.new)) }
        ensures onward { Moves (ahead I.location I.remaining input.old)
            (ahead I.location I.remaining input.new) }
        ensures valid { I.valid input.new }
        ensures kept { I.keeps input.old input.new }
    { read_nested_as(layer, alloc, input, depth - 1) };
    let inner = Inside { layer, read };
    layer.read(alloc, input, &inner)
}

// Cuts.
fn too_deep<I: StreamIsPartial, X, E: ParserError<I, Inner = X>, L: LayerAs<I, E>>(
    _layer: &L,
    alloc: Global,
    input: &mut I,
) -> ModalResult<L::Output, E>
    requires { I.valid input.old }
    ensures answer { Spelt (L.spells _layer.now) (I.expects_more input.old)
        (ahead I.location I.remaining input.old)
        (outcome result (ahead I.location I.remaining input.new)) }
    ensures onward { Moves (ahead I.location I.remaining input.old)
        (ahead I.location I.remaining input.new) }
    ensures valid { I.valid input.new }
    ensures kept { I.keeps input.old input.new }
{
    Err(Failure::Cut(E::from_input(alloc, input)))
}

impl<I: StreamIsPartial, X, E: ParserError<I, Inner = X>, L: LayerAs<I, E>> Parser<I, E>
    for NestedAs<L> {
    type Output = L::Output;

    ghost means = { λ p. Spelt (L.spells p.layer) };

    ghost errors = { λ _. AnyError };

    ghost ready = { λ p. L.ready p.layer };

    ghost lawful = { λ p. IsParser-Spelt (L.spells p.layer) };

    fn parse_next(&self, alloc: Global, input: &mut I) -> ModalResult<L::Output, E> {
        read_nested_as(&self.layer, alloc, input, self.depth)
    }
}

impl<I: StreamIsPartial, X, E: ParserError<I, Inner = X>, L: LayerAs<I, E>> Spells<I, E>
    for NestedAs<L> {
    ghost spells = { λ p. L.spells p.layer };

    ghost spelled = { λ p. spelled-Spelt (L.spells p.layer) };
}
