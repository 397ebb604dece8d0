//! `Accumulate`, the trait of accumulators, and `accumulate_all`.

ghost use Rattle.std.specs.Prelude.{ℕ, ◌+◌, ◌<◌, ◌^◌, List, [], ◌∷◌, ◌++◌, length, Option, IfOk};
ghost use Rattle.std.specs.Prelude.{OnOk, OnErr, ⊤};

use std::alloc::{AllocError, Global};

/// A type that gathers items one after the other, as a parser that repeats another gathers its
/// results.
///
/// If memory is refused, the accumulator stays as it was, and the item is dropped.
pub trait Accumulate<T>: Sized {
    // Whether the accumulator can take one more item.
    ghost can_accumulate: { Self → Type 0 } = { λ _. ⊤ };

    // The accumulator holds exactly what these items give.
    ghost holds: { Self → List T → Type 0 };

    // The accumulator at the start, if this number of items is announced.
    ghost starts: { Option ℕ → Self → Type 0 };

    // The accumulator after one more item, for any value before.
    ghost takes: { Self → T → Self → Type 0 };

    // The second accumulator holds what the first one did.
    ghost stays: { Self → Self → Type 0 };

    // Whether the type asks for memory, which may be refused.
    ghost refusable: { Type 0 } = { ⊤ };

    /// Returns an empty accumulator. A vector, a queue and a hashed map or set have room for
    /// `capacity` elements, and a `String` has room for this number of bytes, but for no more than
    /// 1,024. The other kinds make no room.
    fn initial(alloc: Global, capacity: Option<usize>) -> Result<Self, AllocError>
        ensures empty { IfOk result (starts capacity) }
        ensures refused { OnErr result refusable };

    /// Takes one more item.
    fn accumulate(&mut self, alloc: Global, item: T) -> Result<(), AllocError>
        requires { can_accumulate self.old }
        ensures taken { OnOk result (takes self.old item self.new) }
        ensures kept { OnErr result (stays self.old self.new) }
        ensures refused { OnErr result refusable };

    // At the start it holds what no item gives.
    ghost holds_starts: { (capacity : Option ℕ) (a : Self) → starts capacity a → holds a [] };

    // With one more item it holds what the longer list gives.
    ghost holds_taken: { (old new : Self) (items : List T) (item : T)
        → holds old items → takes old item new → holds new (items ++ item ∷ []) };

    // After a refusal it holds what the same list gives.
    ghost holds_stays: { (old new : Self) (items : List T)
        → holds old items → stays old new → holds new items };

    // It takes as many items as a vector can have.
    ghost fits: { (a : Self) (items : List T)
        → holds a items → length items + 1 < 2 ^ 64 → can_accumulate a };
}

/// Returns an accumulator of the items, which are taken in their order.
pub fn accumulate_all<A: Accumulate<T> + Drop, T: Drop>(
    alloc: Global,
    items: Vec<T>,
) -> Result<A, AllocError>
    ensures holds { IfOk result (λ a. A.holds a items.items) }
    ensures refused { OnErr result A.refusable }
{
    let mut accumulator = A::initial(alloc, Some(items.len()))?;
    for item in items {
        accumulator.accumulate(alloc, item)?;
    }
    Ok(accumulator)
}
