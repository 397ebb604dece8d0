//! `AddContext`, the trait of errors that record the context of a failure.

ghost use Rattle.std.specs.Prelude.{IfOk, OnErr};

use std::alloc::{AllocError, Global};
use winnow_stream::Stream;

/// An error that can record what was being read when it occurred.
pub trait AddContext<I: Stream, C>: Sized {
    // What `add_context` makes of an error, the input, the place where the parser began and what it
    // was reading.
    ghost add_context_gives: { Self → I → I.Checkpoint → C → Self → Type 0 };

    // Whether `add_context` may fail because memory is refused.
    ghost add_context_refusable: { Type 0 };

    /// Returns the error and records in it that a parser which began at `token_start` was reading
    /// `context`.
    fn add_context(
        self,
        alloc: Global,
        input: &I,
        token_start: &I::Checkpoint,
        context: C,
    ) -> Result<Self, AllocError>
        requires valid { I.valid input.now }
        requires valid_checkpoint { I.valid_checkpoint token_start.now }
        ensures ok { IfOk result (add_context_gives self input.now token_start.now context) }
        ensures err { OnErr result add_context_refusable };
}
