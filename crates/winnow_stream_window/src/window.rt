//! `Window`: a part of a slice, with the whole slice.

ghost use Rattle.std.specs.Prelude.{◌≡◌, ◌≤◌, length, ⊤};

use std::alloc::AllocError;

/// A part of a slice: the whole slice, and the places in it at which the part starts and ends.
/// Moving on changes only the start.
pub struct Window<'i, T> {
    pub(crate) whole: &'i [T],
    pub(crate) start: usize,
    pub(crate) end: usize,
    ghost ordered: { start ≤ end },
    ghost within: { end ≤ length whole.now },
}

impl<T> Clone for Window<'_, T> {
    ghost is_clone = { λ s t. s ≡ t };

    ghost is_infallible = { λ _. ⊤ };

    fn clone(&self) -> Result<Self, AllocError> {
        Ok(*self)
    }
}

impl<T> Copy for Window<'_, T> {}
