//! `ErrorConvert`, the trait of errors that convert to another type of error.

ghost use Rattle.std.specs.Prelude.{IfOk, OnErr};

use std::alloc::{AllocError, Global};

/// An error that can be made into another type of error.
pub trait ErrorConvert<E>: Sized {
    // What `convert` makes of an error.
    ghost convert_gives: { Self → E → Type 0 };

    // Whether `convert` may fail because memory is refused.
    ghost convert_refusable: { Type 0 };

    /// Returns the same error as an `E`.
    fn convert(self, alloc: Global) -> Result<E, AllocError>
        ensures ok { IfOk result (convert_gives self) }
        ensures err { OnErr result convert_refusable };
}
