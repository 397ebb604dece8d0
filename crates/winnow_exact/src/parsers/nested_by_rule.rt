//! Grammars that contain themselves and have a meaning of their own: `LayerRule` and
//! `nested_by_rule`.

ghost use Rattle.std.specs.Prelude.{◌≡◌, ℕ, ◌-◌, ◌<◌};
ghost use Rattle.winnow_exact.specs.Nested.{IsNested};
ghost use Rattle.winnow_parser.specs.Answer.{ahead, outcome};
ghost use Rattle.winnow_parser.specs.Errors.{AnyError};
ghost use Rattle.winnow_parser.specs.Following.{Follows};
ghost use Rattle.winnow_parser.specs.Laws.{IsParser};
ghost use Rattle.winnow_parser.specs.Outcome.{Meaning, Moves};

use std::alloc::Global;
use winnow_error::ParserError;
use winnow_parser::{Failure, ModalResult, Parser};
use winnow_stream::StreamIsPartial;

/// A grammar that contains itself, and has a meaning of its own.
pub trait LayerRule<I: StreamIsPartial, E> {
    /// What it reads.
    type Output;

    // What a layer means, by the meaning of the parser of what lies inside.
    ghost layer: { Self → Meaning Self.Output I.Token → Meaning Self.Output I.Token };

    /// Reads one layer from the front of the stream; `inner` reads what lies inside.
    fn read<P: Parser<I, E, Output = Self::Output> + Copy + Drop>(
        &self,
        alloc: Global,
        input: &mut I,
        inner: P,
    ) -> ModalResult<Self::Output, E>
        requires inner { P.ready inner }
        requires valid { I.valid input.old }
        ensures means { layer self.now (P.means inner) (I.expects_more input.old)
            (ahead I.location I.remaining input.old)
            (outcome result (ahead I.location I.remaining input.new)) }
        ensures onward { Moves (ahead I.location I.remaining input.old)
            (ahead I.location I.remaining input.new) }
        ensures valid { I.valid input.new }
        ensures kept { I.keeps input.old input.new };

    // Layers keep the laws of a parser, as many as there are: `IsParser-IsNested` shows it, if a
    // layer does whose inner parser does.
    ghost lawful: { (rule : Self) (depth : ℕ) → IsParser (IsNested (layer rule) depth) };
}

/// A grammar that contains itself, to a depth; [`nested_by_rule`] makes it.
#[derive(Clone, Copy, Drop)]
pub struct NestedByRule<L> {
    layer: L,
    depth: usize,
}

/// Returns the parser of a grammar that contains itself, of at most this many layers. It cuts where
/// the input goes deeper, so that no input uses up the stack.
pub fn nested_by_rule<L>(layer: L, depth: usize) -> NestedByRule<L>
    ensures { result ≡ record { layer = layer; depth = depth } }
{
    NestedByRule { layer, depth }
}

// What lies inside a layer, with this many layers.
#[derive_where(Clone, Copy; F)]
struct Inside<'a, L, F> {
    layer: &'a L,
    depth: usize,
    read: F,
}

impl<
    I: StreamIsPartial,
    E,
    L: LayerRule<I, E>,
    F: Fn(Global, &mut I) -> ModalResult<L::Output, E>,
> Parser<I, E> for Inside<'_, L, F> {
    type Output = L::Output;

    ghost means = { λ p. IsNested (L.layer p.layer.now) p.depth };

    ghost errors = { λ _. AnyError };

    ghost ready = { λ p. Follows F.Fn I.valid I.keeps I.expects_more
        (ahead I.location I.remaining) (IsNested (L.layer p.layer.now) p.depth) p.read };

    ghost lawful = { λ p. L.lawful p.layer.now p.depth };

    fn parse_next(&self, alloc: Global, input: &mut I) -> ModalResult<L::Output, E> {
        (self.read)(alloc, input)
    }
}

#[cycle(nested_by_rule)]
fn read_nested<I: StreamIsPartial, X, E: ParserError<I, Inner = X>, L: LayerRule<I, E>>(
    layer: &L,
    alloc: Global,
    input: &mut I,
    depth: usize,
) -> ModalResult<L::Output, E>
    requires valid { I.valid input.old }
    ensures means { IsNested (L.layer layer.now) depth (I.expects_more input.old)
        (ahead I.location I.remaining input.old)
        (outcome result (ahead I.location I.remaining input.new)) }
    ensures onward { Moves (ahead I.location I.remaining input.old)
        (ahead I.location I.remaining input.new) }
    ensures valid { I.valid input.new }
    ensures kept { I.keeps input.old input.new }
{
    if depth == 0 {
        return too_deep(layer, alloc, input);
    }
    let read = |alloc: Global, input: &mut I| -> ModalResult<L::Output, E>
        requires valid { I.valid input.old }
        requires deep { 0 < depth }
        ensures means { IsNested (L.layer layer.entry.now) (depth - 1) (I.expects_more input.old)
            (ahead I.location I.remaining input.old)
            (outcome result (ahead I.location I.remaining input.new)) }
        ensures onward { Moves (ahead I.location I.remaining input.old)
            (ahead I.location I.remaining input.new) }
        ensures valid { I.valid input.new }
        ensures kept { I.keeps input.old input.new }
    { read_nested(layer, alloc, input, depth - 1) };
    let inner = Inside {
        layer,
        depth: depth - 1,
        read,
    };
    layer.read(alloc, input, &inner)
}

// Cuts.
fn too_deep<I: StreamIsPartial, X, E: ParserError<I, Inner = X>, L: LayerRule<I, E>>(
    _layer: &L,
    alloc: Global,
    input: &mut I,
) -> ModalResult<L::Output, E>
    requires { I.valid input.old }
    ensures means { IsNested (L.layer _layer.now) 0 (I.expects_more input.old)
        (ahead I.location I.remaining input.old)
        (outcome result (ahead I.location I.remaining input.new)) }
    ensures onward { Moves (ahead I.location I.remaining input.old)
        (ahead I.location I.remaining input.new) }
    ensures valid { I.valid input.new }
    ensures kept { I.keeps input.old input.new }
{
    Err(Failure::Cut(E::from_input(alloc, input)))
}

impl<I: StreamIsPartial, X, E: ParserError<I, Inner = X>, L: LayerRule<I, E>> Parser<I, E>
    for NestedByRule<L> {
    type Output = L::Output;

    ghost means = { λ p. IsNested (L.layer p.layer) p.depth };

    ghost errors = { λ _. AnyError };

    ghost ready = { λ _. Unit {0} };

    ghost lawful = { λ p. L.lawful p.layer p.depth };

    fn parse_next(&self, alloc: Global, input: &mut I) -> ModalResult<L::Output, E> {
        read_nested(&self.layer, alloc, input, self.depth)
    }
}
