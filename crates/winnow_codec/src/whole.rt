//! Formats of a whole part: `Whole`.

ghost use Rattle.std.specs.Prelude.{List, ℕ};
ghost use Rattle.winnow_codec.specs.Writing.{Writes};
ghost use Rattle.winnow_codec.specs.WholeFormats.{IsWhole, ReadsWhole};

use crate::{Unread, Unwritten};
use std::alloc::Global;

/// A format of a whole part: its values end where the part does. So it may have spellings that
/// begin others, as a list that no count comes before. [`within`](crate::within) makes a format of
/// it.
pub trait Whole: Sized {
    /// What the bytes of the part stand for.
    type Value;

    // Which bytes spell which value.
    ghost spells: { Self → Self.Value → List ℕ → Type 0 };

    // The two values are the same, as far as their bytes tell.
    ghost same: { Self.Value → Self.Value → Type 0 };

    /// Reads the value that all bytes of a part spell.
    fn read_whole(&self, alloc: Global, part: &[u8]) -> Result<Self::Value, Unread>
        ensures { ReadsWhole (spells self.now) part.now result };

    /// Appends the bytes that spell the value. If none do, or memory is refused, the bytes are what
    /// they were.
    fn write(&self, value: &Self::Value, bytes: &mut Vec<u8>) -> Result<(), Unwritten>
        ensures { Writes (spells self.now) value.now bytes.old.items result bytes.new.items };

    // A value has one spelling, and a spelling is of one value.
    ghost lawful: { (f : Self) → IsWhole same (spells f) };
}
