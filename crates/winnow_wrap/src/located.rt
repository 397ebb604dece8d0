//! The types `LocatingSlice`, a stream with its location, and `Placed`, its checkpoint.

ghost use Rattle.std.specs.Prelude.{◌≡◌, ◌+◌, ◌<◌, ◌^◌, ⊤};

use std::alloc::AllocError;
use winnow_stream::{Rest, Stream};

/// A stream that knows its location in the whole input: the start and the end of a token, for spans
/// and messages.
///
/// The location is 0 at first, or the one that `at` is given, and moves by the width that is taken.
/// A window, which `update_slice` makes, still has its location in the whole input. Two of these
/// streams are compared by the checkpoints of their starts, and then by the streams inside.
///
/// `C` is always the checkpoint of `I`: write `LocatingSlice<I>`.
///
/// Places are counted in bytes of the whole text; `spanned` takes that many tokens:
///
/// ```
/// let mut input = LocatingSlice::new("größe");
/// ..
/// spanned(&mut input, 3),
/// ..
/// [Ok(("grö", 0..4)),
/// ```
#[derive(Drop)]
#[derive_where(PartialEq, Eq, PartialOrd, Ord; I, C)]
pub struct LocatingSlice<I: Rest, C: Rest = <I as Stream>::Checkpoint> {
    pub(crate) start: C,
    pub(crate) input: I,
    #[derive_where(skip(EqHashOrd))]
    pub(crate) location: usize,
    ghost fits: { location + I.rest_width input < 2 ^ 64 },
    ghost start_fits: { C.rest_width start < 2 ^ 64 },
}

/// The contents of a checkpoint of a [`LocatingSlice`]: the checkpoint of the stream inside, and
/// the location.
#[derive(Drop)]
#[derive_where(PartialEq, Eq, PartialOrd, Ord; C)]
pub struct Placed<C: Rest> {
    pub(crate) inner: C,
    #[derive_where(skip(EqHashOrd))]
    pub(crate) location: usize,
    ghost fits: { location + C.rest_width inner < 2 ^ 64 },
}

impl<I: Rest + Copy, C: Rest + Copy> Clone for LocatingSlice<I, C> {
    ghost is_clone = { λ s t. s ≡ t };

    ghost is_infallible = { λ _. ⊤ };

    fn clone(&self) -> Result<Self, AllocError> {
        Ok(*self)
    }
}

impl<I: Rest + Copy, C: Rest + Copy> Copy for LocatingSlice<I, C> {}

impl<C: Rest + Copy> Clone for Placed<C> {
    ghost is_clone = { λ s t. s ≡ t };

    ghost is_infallible = { λ _. ⊤ };

    fn clone(&self) -> Result<Self, AllocError> {
        Ok(*self)
    }
}

impl<C: Rest + Copy> Copy for Placed<C> {}
