//! `Location`, the trait of streams that report locations in the whole input.

ghost use Rattle.std.specs.Prelude.{◌≡◌, ℕ};

/// A location in the whole input, in its offsets. Spans and messages are made of locations.
///
/// If both numbers are the location that a stream keeps, each call moves them on by what it takes:
/// [`span_law`](crate::span_law).
pub trait Location {
    ghost token_end: { Self → ℕ };

    ghost token_start: { Self → ℕ };

    /// Returns the place at which the last token that was taken ends.
    fn previous_token_end(&self) -> usize
        ensures { result ≡ token_end self.now };

    /// Returns the place at which the next token starts.
    fn current_token_start(&self) -> usize
        ensures { result ≡ token_start self.now };
}
