//! A literal and a needle as a user would write them.
ghost use Rattle.std.specs.Prelude.{[], ◌∷◌};

use std::ops::Range;
use winnow_kinds::{ByteLiteral, ByteNeedles};
use winnow_match::CompareResult;

/// A user-defined literal and needle: a byte, twice.
#[derive(Drop)]
pub struct Twice(pub u8);

impl ByteLiteral for Twice {
    ghost literal_bytes = { λ twice. twice.0 ∷ twice.0 ∷ [] };

    fn compare_with(self, bytes: &[u8]) -> CompareResult {
        [self.0, self.0].compare_with(bytes)
    }
}

impl ByteNeedles for Twice {
    ghost needle_bytes = { λ twice. (twice.0 ∷ twice.0 ∷ []) ∷ [] };

    fn find_in(self, bytes: &[u8]) -> Option<Range<usize>> {
        [self.0, self.0].as_slice().find_in(bytes)
    }
}
