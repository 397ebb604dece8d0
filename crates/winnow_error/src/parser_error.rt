//! `ParserError`, the trait of errors that any parser can make, extend and join.

ghost use Rattle.std.specs.Prelude.{◌≡◌, Bool, Option, Result, IfOk, OnErr, is_some};
ghost use Rattle.winnow_stream.specs.declared.needed.Needed.{Needed};

use std::alloc::{AllocError, Global};
use winnow_stream::{Needed, Stream};

/// What a parser over `I` may answer in place of a value.
///
/// Parsers make an error where they fail, add to it on its way out, and join the errors of
/// alternatives. A ghost member says what each call gives, so that generic code can cite it. For a
/// call that takes memory, a further one says whether memory may be refused; the errors that the
/// call took are then dropped.
///
/// An error that keeps those of all alternatives, and needs memory for it:
///
/// ```
/// ghost or_refusable = { ⊤ };
/// ..
/// fn or(mut self, _alloc: Global, other: Self) -> Result<Self, AllocError> {
///     self.0.extend(other.0)?;
///     Ok(self)
/// }
/// ```
pub trait ParserError<I: Stream>: Sized + Drop {
    /// The error without its mode: `E` for `ErrMode<E>`, and the error itself for an error that has
    /// no mode.
    type Inner;

    // The errors that `from_input` gives at an input.
    ghost from_input_gives: { I → Self → Type 0 };

    // The errors that `assert` gives at an input.
    ghost assert_gives: { I → Self → Type 0 };

    // The errors that `incomplete` gives at an input, for the amount that is needed.
    ghost incomplete_gives: { I → Needed → Self → Type 0 };

    // What `append` makes of an error, the input and the place where the failed parser began.
    ghost append_gives: { Self → I → I.Checkpoint → Self → Type 0 };

    // Whether `append` may be refused memory.
    ghost append_refusable: { Type 0 };

    // What `or` makes of two errors.
    ghost or_gives: { Self → Self → Self → Type 0 };

    // Whether `or` may be refused memory.
    ghost or_refusable: { Type 0 };

    // Whether another alternative may be tried after this error.
    ghost backtracks: { Self → Bool };

    // What `into_inner` answers.
    ghost inner: { Self → Result Self.Inner Self };

    // How much more input the parser wanted, if that is the error.
    ghost needs: { Self → Option Needed };

    /// Returns the error of a parser that failed at an input.
    fn from_input(alloc: Global, input: &I) -> Self
        ensures { from_input_gives input.now result };

    /// Returns the error of a parser that was used wrongly, as `message` says.
    fn assert(alloc: Global, input: &I, message: &'static str) -> Self
        ensures { assert_gives input.now result };

    /// Returns the error of a parser that wanted more input.
    fn incomplete(alloc: Global, input: &I, needed: Needed) -> Self
        ensures { incomplete_gives input.now needed result };

    /// Returns the error and records in it that a parser which began at `token_start` failed
    /// because of it.
    fn append(
        self,
        alloc: Global,
        input: &I,
        token_start: &I::Checkpoint,
    ) -> Result<Self, AllocError>
        requires valid { I.valid input.now }
        requires valid_checkpoint { I.valid_checkpoint token_start.now }
        ensures ok { IfOk result (append_gives self input.now token_start.now) }
        ensures err { OnErr result append_refusable };

    /// Returns the error of two alternatives that both failed, this one first.
    fn or(self, alloc: Global, other: Self) -> Result<Self, AllocError>
        ensures ok { IfOk result (or_gives self other) }
        ensures err { OnErr result or_refusable };

    /// Returns whether another alternative may still be tried.
    fn is_backtrack(&self) -> bool
        ensures { result ≡ backtracks self.now };

    /// Returns the error without its mode, or the whole error as `Err` if nothing is left without
    /// the mode.
    fn into_inner(self) -> Result<Self::Inner, Self>
        ensures { result ≡ inner self };

    /// Returns how much more input the parser wanted, or `None` if it failed for another reason.
    fn needed(&self) -> Option<Needed>
        ensures { result ≡ needs self.now };

    /// Returns whether the parser wanted more input.
    fn is_incomplete(&self) -> bool
        ensures { result ≡ is_some (needs self.now) }
    {
        self.needed().is_some()
    }
}
