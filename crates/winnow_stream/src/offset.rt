//! `Offset`, the width between two places of one input.

ghost use Rattle.std.specs.Prelude.{◌≡◌, ◌-◌, ◌≤◌, ⊤};
ghost use Rattle.winnow_stream.specs.Checkpoint.{checkpoint_inner};

use crate::texts::width_of;
use crate::{Checkpoint, Rest};

/// The width between two places of one input: from `Start`, a stream or a checkpoint, to this one.
///
/// Code that is generic over [`Stream`](crate::Stream) calls `offset_since`, whose premises the
/// laws of `Stream` give.
pub trait Offset<Start: Rest>: Rest {
    // The two values may be asked for the width between them.
    ghost can_measure: { Self → Start → Type 0 } = { λ _ _. ⊤ };

    /// Returns the width that remained at `start`, less the width that remains here. No more
    /// remains here than at `start`.
    fn offset_from(&self, start: &Start) -> usize
        requires measured { can_measure self.now start.now }
        requires no_wider { Self.rest_width self.now ≤ Start.rest_width start.now }
        ensures { result ≡ Start.rest_width start.now - Self.rest_width self.now };
}

impl<'i, T> Offset<&'i [T]> for &'i [T] {
    fn offset_from(&self, start: &&'i [T]) -> usize {
        start.len() - self.len()
    }
}

impl<'i, T> Offset<Checkpoint<&'i [T], &'i [T]>> for &'i [T] {
    fn offset_from(&self, start: &Checkpoint<&'i [T], &'i [T]>) -> usize {
        self.offset_from(start.inner())
    }
}

impl<'i> Offset<&'i str> for &'i str {
    fn offset_from(&self, start: &&'i str) -> usize {
        width_of(start) - width_of(self)
    }
}

impl<'i> Offset<Checkpoint<&'i str, &'i str>> for &'i str {
    fn offset_from(&self, start: &Checkpoint<&'i str, &'i str>) -> usize {
        self.offset_from(start.inner())
    }
}

impl<I: Offset<I>, S> Offset<Checkpoint<I, S>> for Checkpoint<I, S> {
    ghost can_measure = { λ c start. I.can_measure (checkpoint_inner c) (checkpoint_inner start) };

    fn offset_from(&self, start: &Checkpoint<I, S>) -> usize {
        self.inner().offset_from(start.inner())
    }
}
