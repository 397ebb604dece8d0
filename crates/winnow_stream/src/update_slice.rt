//! `UpdateSlice`, which narrows a stream to a slice of itself.

ghost use Rattle.std.specs.Prelude.{◌≡◌, ℕ, IsTrue};
ghost use Rattle.winnow_stream.specs.Front.{front, is_offset, IsSomeFront};

use crate::{Checkpoint, Stream};
use std::fmt::Debug;

/// A stream that can be narrowed to a slice of itself: a window.
pub trait UpdateSlice: Stream {
    /// Returns this stream with the list of `inner` remaining; what is kept stays. `inner` is a
    /// front of what remained at `at`.
    fn update_slice(self, inner: Self::Slice, at: &Self::Checkpoint) -> Self
        requires valid { Self.valid self }
        requires valid_checkpoint { Self.valid_checkpoint at.now }
        requires is_prefix { IsSomeFront Self.is_slice inner (Self.remained at.now) }
        ensures remains { (n : ℕ) → IsTrue (is_offset (Self.remained at.now) n)
            → Self.is_slice inner (Self.remained at.now) n
            → Self.remaining result ≡ front (Self.remained at.now) n }
        ensures location { Self.location result ≡ Self.Checkpoint.location at.now }
        ensures valid { Self.valid result }
        ensures kept { Self.keeps self result };
}

impl<'i, T: Copy + Debug> UpdateSlice for &'i [T] {
    fn update_slice(self, inner: &'i [T], _at: &Checkpoint<&'i [T], &'i [T]>) -> Self {
        inner
    }
}

impl<'i> UpdateSlice for &'i str {
    fn update_slice(self, inner: &'i str, _at: &Checkpoint<&'i str, &'i str>) -> Self {
        inner
    }
}
