//! The span of a slice of tokens: `SliceSpan`.

ghost use Rattle.std.specs.Prelude.{◌≡◌, ℕ, Option};
ghost use Rattle.std.specs.declared.ops.Range.{Range};
ghost use Rattle.winnow_spans.specs.TokenSpan.{span_of};

use std::ops::Range;
use winnow_stream::Location;

/// A slice of tokens that know where they stand.
pub trait SliceSpan {
    ghost span: { Self → Option (Range ℕ) };

    /// Returns the range from where the first token starts to where the last one ends, or `None`
    /// if there is no token.
    fn span(&self) -> Option<Range<usize>>
        ensures { result ≡ span self.now };
}

impl<T: Location> SliceSpan for &[T] {
    ghost span = { λ s. span_of T.token_start T.token_end s.now };

    fn span(&self) -> Option<Range<usize>> {
        let first = self.first()?;
        let last = self.last()?;
        Some(first.current_token_start()..last.previous_token_end())
    }
}
