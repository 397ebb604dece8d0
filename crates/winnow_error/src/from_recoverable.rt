//! `FromRecoverableError`, the trait of records of errors from which a parser recovers.

ghost use Rattle.std.specs.Prelude.{◌≡◌};

use winnow_stream::Stream;

/// An error that is recorded where a parser recovers from an error `E`. Making it takes no memory.
pub trait FromRecoverableError<I: Stream, E>: Sized {
    // What is recorded for an error, given where the parser began, where the error occurred, and
    // the input.
    ghost recovered: { I.Checkpoint → I.Checkpoint → I → E → Self };

    /// Returns what is recorded of an error from which a parser that began at `token_start`
    /// recovered.
    fn from_recoverable_error(
        token_start: &I::Checkpoint,
        err_start: &I::Checkpoint,
        input: &I,
        e: E,
    ) -> Self
        ensures { result ≡ recovered token_start.now err_start.now input.now e };
}
