//! `Gather`, which collects the values of a repeated parser, by `Accumulated` or by `Folded`.

ghost use Rattle.std.specs.Prelude.{◌≡◌, ℕ, ◌+◌, ◌<◌, ◌^◌, List, [], ◌∷◌, ◌++◌, length};
ghost use Rattle.std.specs.Prelude.{IfOk, OnOk, OnErr, ⊤};
ghost use Rattle.std.specs.List.{FoldsTo};
ghost use Rattle.winnow_combinator.specs.Gathering.{Folds, Folds-taken};

use core::mem::replace_with;
use std::alloc::{AllocError, Global};
use std::marker::PhantomData;
use winnow_count::Accumulate;

/// Gathers the values of a repeated parser: in an accumulator, or by a function that folds them.
pub trait Gather<T> {
    /// The result of gathering.
    type Whole: Drop;

    // It may be asked to take values.
    ghost ready: { Self → Type 0 };

    // These values, in their order, make this result.
    ghost makes: { Self → List T → Self.Whole → Type 0 };

    // One more value makes the new result of the old one.
    ghost takes: { Self → Self.Whole → T → Self.Whole → Type 0 };

    // Whether one more value can be taken.
    ghost can_take: { Self → Self.Whole → Type 0 };

    // Memory is asked for, which may be refused.
    ghost refusable: { Type 0 };

    /// Takes one more value.
    fn take(&self, alloc: Global, whole: &mut Self::Whole, value: T) -> Result<(), AllocError>
        requires ready { ready self.now }
        requires can { can_take self.now whole.old }
        ensures taken { OnOk result (takes self.now whole.old value whole.new) }
        ensures refused { OnErr result refusable };

    // One more value makes what the longer list makes.
    ghost makes_taken: { (g : Self) (values : List T) (old new : Self.Whole) (value : T)
        → makes g values old → takes g old value new → makes g (values ++ value ∷ []) new };

    // Values can be taken up to the number that a vector can have.
    ghost fits: { (g : Self) (values : List T) (whole : Self.Whole)
        → makes g values whole → length values + 1 < 2 ^ 64 → can_take g whole };
}

/// Gathers from no value on.
pub trait Begin<T>: Gather<T> {
    /// Returns the result for no values.
    fn begin(&self, alloc: Global) -> Result<Self::Whole, AllocError>
        requires { Self.ready self.now }
        ensures made { IfOk result (λ whole. Self.makes self.now [] whole) }
        ensures refused { OnErr result Self.refusable };
}

/// Gathers each value in an accumulator.
#[derive_where(Clone, Copy)]
pub struct Accumulated<A> {
    of: PhantomData<A>,
}

impl<A> Accumulated<A> {
    // Returns the value that gathers in an accumulator `A`.
    pub(crate) fn new() -> Self {
        Accumulated { of: PhantomData }
    }
}

impl<T, A: Accumulate<T> + Drop> Gather<T> for Accumulated<A> {
    type Whole = A;

    ghost ready = { λ _. ⊤ };

    ghost makes = { λ _ values whole. A.holds whole values };

    ghost takes = { λ _ old value new. A.takes old value new };

    ghost can_take = { λ _ whole. A.can_accumulate whole };

    ghost refusable = { A.refusable };

    fn take(&self, alloc: Global, whole: &mut A, value: T) -> Result<(), AllocError> {
        whole.accumulate(alloc, value)
    }

    ghost makes_taken = { λ _ values old new value. A.holds_taken old new values value };

    ghost fits = { λ _ values whole. A.fits whole values };
}

impl<T, A: Accumulate<T> + Drop> Begin<T> for Accumulated<A> {
    fn begin(&self, alloc: Global) -> Result<A, AllocError> {
        A::initial(alloc, None)
    }
}

/// Folds the values by a function, from a start that another function gives.
#[derive(Clone, Copy, Drop)]
pub struct Folded<N, F> {
    pub(crate) init: N,
    pub(crate) f: F,
}

impl<T, W: Drop, N: Fn() -> W, F: Fn(W, T) -> W> Gather<T> for Folded<N, F> {
    type Whole = W;

    ghost ready = { λ g. N.IsAlwaysCallable g.init × F.IsAlwaysCallable g.f };

    ghost makes = { λ g. Folds (N.post g.init) (F.post g.f) };

    ghost takes = { λ g. F.post g.f };

    ghost can_take = { λ _ _. ⊤ };

    ghost refusable = { ⊥ };

    fn take(&self, _alloc: Global, whole: &mut W, value: T) -> Result<(), AllocError> {
        let f = &self.f;
        replace_with(whole, value, |old, value| (f(old, value), ()));
        Ok(())
    }

    ghost makes_taken = { λ g. Folds-taken (N.post g.init) (F.post g.f) };

    ghost fits = { λ _ _ _ _ _. tt };
}

impl<T, W: Drop, N: Fn() -> W, F: Fn(W, T) -> W> Begin<T> for Folded<N, F> {
    fn begin(&self, _alloc: Global) -> Result<W, AllocError> {
        Ok((self.init)())
    }
}

// Returns the result for one value.
pub(crate) fn begin_with<T: Drop, G: Begin<T>>(
    gather: &G,
    alloc: Global,
    value: T,
) -> Result<G::Whole, AllocError>
    requires { G.ready gather.now }
    ensures made { IfOk result (λ whole. G.makes gather.now (value ∷ []) whole) }
    ensures refused { OnErr result G.refusable }
{
    match gather.begin(alloc) {
        Ok(mut whole) => match gather.take(alloc, &mut whole, value) {
            Ok(()) => Ok(whole),
            Err(refused) => Err(refused),
        },
        Err(refused) => Err(refused),
    }
}
