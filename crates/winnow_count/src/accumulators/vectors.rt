//! `Vec` as an accumulator of items and of slices, and `VecDeque` as one of slices.

ghost use Rattle.std.specs.Prelude.{◌≡◌, [], ◌∷◌, ◌++◌, OnOk, OnErr};
ghost use Rattle.std.specs.List.{flat_map};
ghost use Rattle.std.specs.Vec.{VecUnchanged};
ghost use Rattle.std.specs.VecDeque.{DequeUnchanged};
ghost use Rattle.std.proofs.Common.{rules};
ghost use Rattle.winnow_count.specs.Accumulation.{StartsQueue, StartsVector};
ghost use Rattle.winnow_count.specs.AccumulationLaws.{concat_taken};

use super::room;
use crate::Accumulate;
use std::alloc::{AllocError, Global};
use std::collections::VecDeque;

/// Pushes each item.
impl<T: Drop> Accumulate<T> for Vec<T> {
    ghost holds = { λ vector items. vector.items ≡ items };

    ghost starts = { StartsVector };

    ghost takes = { λ old item new. new.items ≡ old.items ++ item ∷ [] };

    ghost stays = { VecUnchanged };

    fn initial(alloc: Global, capacity: Option<usize>) -> Result<Self, AllocError> {
        Vec::with_capacity(alloc, room(capacity))
    }

    fn accumulate(&mut self, _alloc: Global, item: T) -> Result<(), AllocError> {
        self.push(item)?;
        Ok(())
    }

    ghost holds_starts = { Prim.search rules };

    ghost holds_taken = { Prim.search rules };

    ghost holds_stays = { Prim.search rules };

    ghost fits = { Prim.search rules };
}

/// Appends each slice.
impl<'i, T: Copy> Accumulate<&'i [T]> for Vec<T> {
    ghost holds = { λ vector slices. vector.items ≡ flat_map (λ slice. slice.now) slices };

    ghost starts = { StartsVector };

    ghost takes = { λ old slice new. new.items ≡ old.items ++ slice.now };

    ghost stays = { VecUnchanged };

    fn initial(alloc: Global, capacity: Option<usize>) -> Result<Self, AllocError> {
        Vec::with_capacity(alloc, room(capacity))
    }

    fn accumulate(&mut self, _alloc: Global, slice: &'i [T]) -> Result<(), AllocError> {
        self.extend_from_slice(slice)
    }

    ghost holds_starts = { Prim.search rules };

    ghost holds_taken = { concat_taken (λ all. all.items) (λ slice. slice.now) };

    ghost holds_stays = { Prim.search rules };

    ghost fits = { Prim.search rules };
}

/// Appends each slice.
impl<'i, T: Copy> Accumulate<&'i [T]> for VecDeque<T> {
    ghost holds = { λ queue slices. queue.items ≡ flat_map (λ slice. slice.now) slices };

    ghost starts = { StartsQueue };

    ghost takes = { λ old slice new. new.items ≡ old.items ++ slice.now };

    ghost stays = { DequeUnchanged };

    fn initial(alloc: Global, capacity: Option<usize>) -> Result<Self, AllocError> {
        VecDeque::with_capacity(alloc, room(capacity))
    }

    fn accumulate(&mut self, _alloc: Global, slice: &'i [T]) -> Result<(), AllocError> {
        append(self, slice)
    }

    ghost holds_starts = { Prim.search rules };

    ghost holds_taken = { concat_taken (λ all. all.items) (λ slice. slice.now) };

    ghost holds_stays = { Prim.search rules };

    ghost fits = { Prim.search rules };
}

// Room is made first, so a refusal leaves the queue as it was.
fn append<T: Copy>(queue: &mut VecDeque<T>, slice: &[T]) -> Result<(), AllocError>
    ensures ok { OnOk result (queue.new.items ≡ queue.old.items ++ slice.now) }
    ensures err { OnErr result (DequeUnchanged queue.old queue.new) }
{
    queue.reserve(slice.len())?;
    for item in slice {
        queue.push_back_reserved(*item);
    }
    Ok(())
}
