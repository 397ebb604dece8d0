//! Values that hold values of their own type: `Layered`, `nested`.

ghost use Rattle.std.specs.Prelude.{◌≡◌, ◌<◌, ℕ, List, IfOk, get_or, length};
ghost use Rattle.winnow_codec.specs.Writing.{Writes};
ghost use Rattle.winnow_codec_nested.specs.Layered.{SpellsNested, AreSameNested, CountsAlike};
ghost use Rattle.winnow_codec_nested.specs.Layered.{IsFormat-Nested};

use crate::reading::read_value;
use crate::writing::write_value;
use std::alloc::{AllocError, Global};
use winnow_codec::{Format, Unwritten};
use winnow_error::ParserError;
use winnow_parser::ModalResult;
use winnow_stream::StreamIsPartial;

/// Values that hold values of their own type, as an array of arrays does. A value is spelled as its
/// head, which says what kind it is and how many values it holds, and then those.
pub trait Layered {
    /// The type of the values.
    type Value: Drop;

    /// The type of the format of heads.
    type Heads: Format;

    // The head of a value.
    ghost head_of: { Self.Value → Self.Heads.Value };

    // The values that a value holds, in the order of their bytes.
    ghost held: { Self.Value → List Self.Value };

    // How many values follow a head.
    ghost count_after: { Self.Heads.Value → ℕ };

    /// Appends the bytes that spell the head of a value.
    fn write_head(
        &self,
        heads: &Self::Heads,
        value: &Self::Value,
        bytes: &mut Vec<u8>,
    ) -> Result<(), Unwritten>
        ensures { Writes (Self.Heads.spells heads.now) (head_of value.now) bytes.old.items result
            bytes.new.items };

    /// Returns how many values the head of a value says that it holds.
    fn count_said(&self, value: &Self::Value) -> u128
        ensures { result ≡ count_after (head_of value.now) };

    /// Returns how many values follow a head.
    fn count_after(&self, head: &<Self::Heads as Format>::Value) -> u128
        ensures { result ≡ count_after head.now };

    /// Returns how many values a value holds.
    fn count(&self, value: &Self::Value) -> usize
        ensures { result ≡ length (held value.now) };

    /// Returns the value with this index, of those that a value holds.
    fn inner<'v>(&self, value: &'v Self::Value, index: usize) -> &'v Self::Value
        requires { index < length (held value.now) }
        ensures { result.now ≡ get_or (held value.now) index result.now };

    /// Returns the value that has this head, and holds these, as many as the head says. It returns
    /// `Err` only if memory is refused.
    fn join(
        &self,
        alloc: Global,
        head: <Self::Heads as Format>::Value,
        inners: Vec<Self::Value>,
    ) -> Result<Self::Value, AllocError>
        requires { length inners.items ≡ count_after head }
        ensures head { IfOk result (λ value. head_of value ≡ head) }
        ensures held { IfOk result (λ value. held value ≡ inners.items) };

    // Heads that are the same say of the same number of values: `CountsAlike-Exact` shows it of
    // heads that are compared.
    ghost counts_alike: { CountsAlike Self.Heads.same count_after };
}

/// The format of values that hold values of their own type; [`nested`] makes it.
#[derive(Clone, Copy, Drop)]
pub struct InLayers<L, H> {
    layers: L,
    heads: H,
    depth: usize,
}

/// Returns the format of values that hold values of their own type, in at most `depth` layers: 1
/// allows those that hold none. A value in a deeper layer is refused where it begins, and a value
/// with one has no spelling.
///
/// Calls are nested as deep as values.
pub fn nested<L: Layered>(layers: L, heads: L::Heads, depth: usize) -> InLayers<L, L::Heads>
    ensures { result ≡ record { layers = layers; heads = heads; depth = depth } }
{
    InLayers {
        layers,
        heads,
        depth,
    }
}

impl<L: Layered<Heads = H>, H: Format> Format for InLayers<L, H>
where
    H::Value: Drop,
{
    type Value = L::Value;

    ghost spells = { λ f. SpellsNested (H.spells f.heads) L.head_of L.held L.count_after f.depth };

    ghost same = { AreSameNested H.same L.head_of L.held };

    ghost lawful = { λ f. IsFormat-Nested H.same (H.spells f.heads) L.head_of L.held L.count_after
        L.counts_alike (H.lawful f.heads) f.depth };

    fn read<I: StreamIsPartial<Token = u8>, E: ParserError<I>>(
        &self,
        alloc: Global,
        input: &mut I,
    ) -> ModalResult<L::Value, E> {
        read_value(&self.layers, &self.heads, self.depth, alloc, input)
    }

    fn write(&self, value: &L::Value, bytes: &mut Vec<u8>) -> Result<(), Unwritten> {
        write_value(&self.layers, &self.heads, self.depth, value, bytes)
    }
}
