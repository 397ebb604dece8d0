//! Laws of a stream that records errors. A law does nothing when called: its contract is the law.

ghost use Rattle.std.specs.Prelude.{ℕ, List};
ghost use Rattle.winnow_stream.specs.SliceBytes.{SlicesHaveBytes, SlicesHaveText};

use crate::Recoverable;
use std::fmt::Debug;
use winnow_stream::Stream;

/// The law of slices of a `Recoverable` around a stream of bytes: they have the bytes that the
/// slices of the stream inside have.
pub fn recoverable_slice_law<I: Stream<Token = u8>, E: Debug>()
    ensures { (bytes : I.Slice → List ℕ) → SlicesHaveBytes I.is_slice bytes
        → SlicesHaveBytes ⟦<Recoverable<I, E> as Stream>⟧.is_slice bytes }
{}

/// The law of slices of a `Recoverable` around a stream of characters: they are the text that the
/// slices of the stream inside are.
pub fn recoverable_text_slice_law<I: Stream<Token = char>, E: Debug>()
    ensures { (text_bytes : I.Slice → List ℕ) → SlicesHaveText I.is_slice text_bytes
        → SlicesHaveText ⟦<Recoverable<I, E> as Stream>⟧.is_slice text_bytes }
{}
