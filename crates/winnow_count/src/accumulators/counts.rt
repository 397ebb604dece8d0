//! `()` and `usize` as accumulators: one ignores the items, the other counts them.

ghost use Rattle.std.specs.Prelude.{◌≡◌, ◌+◌, ◌<◌, ◌^◌, length, ⊤};
ghost use Rattle.std.proofs.Common.{rules};
ghost use Rattle.winnow_count.specs.AccumulationLaws.{count_taken};

use crate::Accumulate;
use std::alloc::{AllocError, Global};

/// Ignores each item, and takes no memory.
impl<T: Drop> Accumulate<T> for () {
    ghost holds = { λ _ _. ⊤ };

    ghost starts = { λ _ _. ⊤ };

    ghost takes = { λ _ _ _. ⊤ };

    ghost stays = { λ _ _. ⊤ };

    ghost refusable = { ⊥ };

    fn initial(_alloc: Global, _capacity: Option<usize>) -> Result<Self, AllocError> {
        Ok(())
    }

    fn accumulate(&mut self, _alloc: Global, _item: T) -> Result<(), AllocError> {
        Ok(())
    }

    ghost holds_starts = { Prim.search rules };

    ghost holds_taken = { Prim.search rules };

    ghost holds_stays = { Prim.search rules };

    ghost fits = { Prim.search rules };
}

/// Counts the items, and takes no memory. The count must be below the greatest `usize`.
impl<T: Drop> Accumulate<T> for usize {
    ghost can_accumulate = { λ count. count + 1 < 2 ^ 64 };

    ghost holds = { λ count items. count ≡ length items };

    ghost starts = { λ _ count. count ≡ 0 };

    ghost takes = { λ old _ new. new ≡ old + 1 };

    ghost stays = { λ old new. new ≡ old };

    ghost refusable = { ⊥ };

    fn initial(_alloc: Global, _capacity: Option<usize>) -> Result<Self, AllocError> {
        Ok(0)
    }

    fn accumulate(&mut self, _alloc: Global, _item: T) -> Result<(), AllocError> {
        *self += 1;
        Ok(())
    }

    ghost holds_starts = { Prim.search rules };

    ghost holds_taken = { count_taken };

    ghost holds_stays = { Prim.search rules };

    ghost fits = { Prim.search rules };
}
