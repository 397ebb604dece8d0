//! `FromExternalError`, the trait of errors that are made of errors of other code.

use std::alloc::Global;

/// An error that can be made from an error of other code, as when a number could not be read.
pub trait FromExternalError<I, E>: Sized {
    // The errors that `from_external_error` may return for an input and the other code's error.
    ghost from_external_gives: { I → E → Self → Type 0 };

    /// Returns the error of a parser that failed at an input because of `e`.
    fn from_external_error(alloc: Global, input: &I, e: E) -> Self
        ensures { from_external_gives input.now e result };
}
