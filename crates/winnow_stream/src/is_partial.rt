//! `StreamIsPartial`: whether more input may follow the remaining input.

ghost use Rattle.std.specs.Prelude.{◌≡◌, Bool, false, refl};

use crate::Stream;
use std::fmt::Debug;

/// Whether more input may follow what remains. Only `Partial` has a flag for it. Every other
/// wrapper answers as the stream inside it does, and a plain stream has no flag.
pub trait StreamIsPartial: Stream + Sized {
    /// The flag that `complete` returns, so that `restore_partial` can set it again.
    type PartialState;

    // Whether the type has a flag.
    ghost supports_partial: { Bool };

    // The flag, and whether it says that more may follow.
    ghost partial_state: { Self → Self.PartialState };

    ghost expects_more: { Self → Bool };

    // The two values agree in all but the flag.
    ghost same_but_flag: { Self → Self → Type 0 };

    /// Notes that nothing follows, and returns the flag that was set before.
    fn complete(&mut self) -> Self::PartialState
        ensures old { result ≡ partial_state self.old }
        ensures complete { expects_more self.new ≡ false }
        ensures same { same_but_flag self.old self.new }
        ensures rest { Self.same_rest self.old self.new }
        ensures width { Self.rest_width self.new ≡ Self.rest_width self.old }
        ensures location { Self.location self.new ≡ Self.location self.old };

    /// Sets the flag to one that `complete` returned.
    fn restore_partial(&mut self, state: Self::PartialState)
        ensures set { partial_state self.new ≡ state }
        ensures same { same_but_flag self.old self.new }
        ensures rest { Self.same_rest self.old self.new }
        ensures width { Self.rest_width self.new ≡ Self.rest_width self.old }
        ensures location { Self.location self.new ≡ Self.location self.old };

    /// Returns whether the type has a flag.
    fn is_partial_supported() -> bool
        ensures { result ≡ supports_partial };

    /// Returns whether more may follow.
    fn is_partial(&self) -> bool
        ensures { result ≡ expects_more self.now };

    // The flag alone says whether more may follow, so restoring the flag restores that.
    ghost flag_decides: { (s t : Self) → partial_state s ≡ partial_state t
        → expects_more s ≡ expects_more t };

    // A type without a flag never expects more.
    ghost no_flag: { supports_partial ≡ false → (s : Self) → expects_more s ≡ false };

    // No call of `Stream` changes whether more may follow.
    ghost keeps_flag: { (s t : Self) → Self.keeps s t → expects_more t ≡ expects_more s };
}

impl<T: Copy + Debug> StreamIsPartial for &[T] {
    type PartialState = ();

    ghost supports_partial = { false };

    ghost partial_state = { λ _. tt };

    ghost expects_more = { λ _. false };

    ghost same_but_flag = { λ s t. s ≡ t };

    ghost flag_decides = { λ _ _ _. refl };

    ghost no_flag = { λ _ _. refl };

    ghost keeps_flag = { λ _ _ _. refl };

    fn complete(&mut self) {}

    fn restore_partial(&mut self, _state: ()) {}

    fn is_partial_supported() -> bool {
        false
    }

    fn is_partial(&self) -> bool {
        false
    }
}

impl StreamIsPartial for &str {
    type PartialState = ();

    ghost supports_partial = { false };

    ghost partial_state = { λ _. tt };

    ghost expects_more = { λ _. false };

    ghost same_but_flag = { λ s t. s ≡ t };

    ghost flag_decides = { λ _ _ _. refl };

    ghost no_flag = { λ _ _. refl };

    ghost keeps_flag = { λ _ _ _. refl };

    fn complete(&mut self) {}

    fn restore_partial(&mut self, _state: ()) {}

    // A function without `self`, in an impl at a lifetime, does not inherit the trait's clause.
    fn is_partial_supported() -> bool
        ensures { result ≡ false }
    {
        false
    }

    fn is_partial(&self) -> bool {
        false
    }
}
