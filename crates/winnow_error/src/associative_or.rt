//! `AssociativeOr`, the trait of errors with an associative `or` that is never refused memory.

ghost use Rattle.std.specs.Prelude.{◌≡◌};

use crate::ParserError;
use std::alloc::Global;
use winnow_stream::Stream;

/// An error whose `or` always answers `Ok`, with an error that an associative function gives.
///
/// So the error of many alternatives does not depend on how they are bracketed.
pub trait AssociativeOr<I: Stream>: ParserError<I> {
    // The function: the one error that stands for two.
    ghost joined: { Self → Self → Self };

    /// Returns the error of two alternatives as `or` does, and is never refused memory.
    fn join(self, alloc: Global, other: Self) -> Self
        ensures { result ≡ joined self other }
    {
        match self.or(alloc, other) {
            Ok(error) => error,
            Err(_) => unreachable!(),
        }
    }

    // `or` gives no other error than `joined`.
    ghost or_gives_joined: { (a b r : Self) → Self.or_gives a b r → r ≡ joined a b };

    // `or` is never refused.
    ghost or_never_refused: { Self.or_refusable → ⊥ };

    // Three errors have one value, whichever two are joined first.
    ghost joined_associative: { (a b c : Self) → joined (joined a b) c ≡ joined a (joined b c) };
}
