//! The trait of streams on which a parser may record an error: `Recover`.

ghost use Rattle.std.specs.Prelude.{◌≡◌, Bool, OnErr, OnOk, true, false};
ghost use Rattle.winnow_recover.specs.Recording.{IsRecording};

use crate::RecordError;
use winnow_stream::Stream;

/// A stream on which a parser may record an error `E` from which it recovers. Every stream is one,
/// and all but [`Recoverable`](crate::Recoverable) refuse each error.
pub trait Recover<E>: Stream {
    // Whether the stream refuses the error.
    ghost refuses: { Self → E → Bool } = { λ _ _. true };

    // The streams that recording the error may give, by the place at which the parser began and the
    // place of the error.
    ghost records: { Self → Self.Checkpoint → Self.Checkpoint → E → Self
        → Type 0 } = { λ _ _ _ _ _. ⊥ };

    // The two streams are the same, except for room in memory.
    ghost unchanged: { Self → Self → Type 0 } = { λ s t. t ≡ s };

    // Whether the type records errors at all.
    ghost supports_recovery: { Bool } = { false };

    /// Records an error of a parser that began at `token_start` and failed at `err_start`.
    ///
    /// If an error is refused, or there is no memory for it, it comes back, and nothing has
    /// changed.
    fn record_err(
        &mut self,
        token_start: &Self::Checkpoint,
        err_start: &Self::Checkpoint,
        err: E,
    ) -> Result<(), RecordError<E>>
        ensures answer { IsRecording (refuses self.old err) err result }
        ensures ok { OnOk result (records self.old token_start.now err_start.now err self.new) }
        ensures err { OnErr result (unchanged self.old self.new) }
        ensures remains { Self.remaining self.new ≡ Self.remaining self.old }
        ensures location { Self.location self.new ≡ Self.location self.old }
        ensures valid { Self.valid self.old → Self.valid self.new };

    /// Returns whether the type records errors at all.
    fn is_recovery_supported() -> bool
        ensures { result ≡ supports_recovery };

    // A type that records no errors refuses each.
    ghost refuses_unsupported: { (s : Self) (e : E) → supports_recovery ≡ false
        → refuses s e ≡ true };

    // To every call of `Stream`, an unchanged stream is the same.
    ghost unchanged_keeps: { (s t : Self) → unchanged s t → Self.keeps s t };

    // A parser may record an error.
    ghost records_keeps: { (s t : Self) (start at : Self.Checkpoint) (e : E)
        → refuses s e ≡ false → records s start at e t → Self.keeps s t };
}
