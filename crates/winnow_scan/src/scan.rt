//! `Scan`: a record whose bytes can be gone over once, to find when its parser may be asked.

ghost use Rattle.std.specs.Prelude.{ℕ, List, [], ◌++◌};
ghost use Rattle.winnow_scan.specs.Scanning.{GoesOn};

use winnow_reader::Record;

/// A record with a scan: one pass over its bytes, in pieces of any sizes, finds when its parser may
/// be asked.
///
/// A reader calls `start` at the beginning of each record, and then `scan` with each byte that
/// comes, once, until it returns true.
pub trait Scan: Record {
    /// What a scan keeps of the bytes so far.
    type State: Drop;

    // The states in which a scan of these bytes may be that has not returned true.
    ghost scanned: { Self → List ℕ → Self.State → Type 0 };

    /// Returns the state before the first byte of a record.
    fn start(&self) -> Self::State
        ensures { scanned self.now [] result };

    /// Goes over the bytes that come next, and returns whether the parser may be asked. While it
    /// returns false, the parser, asked of all bytes since `start`, needs more, or has neither a
    /// value nor a failure there.
    fn scan(&self, state: &mut Self::State, more: &[u8]) -> bool
        ensures { (front : List ℕ) → scanned self.now front state.old
            → GoesOn (Self.means self.now) (scanned self.now) (front ++ more.now) result
            state.new };
}
