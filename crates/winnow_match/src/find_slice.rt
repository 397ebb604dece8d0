//! The trait of a search for the first place of a needle: `FindSlice`.

ghost use Rattle.std.specs.Prelude.{◌≡◌, ℕ, Option, IfSome};
ghost use Rattle.std.specs.declared.ops.Range as range_declared;
ghost use Rattle.winnow_stream.specs.Source.{Source};
ghost use Rattle.winnow_match.specs.Search.{AreOffsets};

use std::ops::Range;
use winnow_stream::Stream;

/// A stream that can be searched for a needle, or for one of several. `T` names the needles.
///
/// A function over any such stream takes what stands before the needle:
///
/// ```
/// let hit = input.find_slice(needle)?;
/// Some(input.next_slice(hit.start))
/// ```
pub trait FindSlice<T>: Stream {
    // The range that the search finds in what remains.
    ghost found: { T → Source Self.Token → Option (range_declared.Range ℕ) };

    /// Returns the least place at which a needle stands, up to the end of the first listed needle
    /// that stands there. Places are counted from the place at which the stream stands, and the
    /// stream stays there. An empty needle stands at once, at `0..0`. Both ends are offsets, and
    /// the end is no nearer than the start, so a caller may take what stands before the needle, and
    /// then the needle.
    fn find_slice(&self, substr: T) -> Option<Range<usize>>
        requires { Self.valid self.now }
        ensures answer { result ≡ found substr (Self.remaining self.now) }
        ensures offsets { IfSome result (AreOffsets (Self.remaining self.now)) };
}
