//! Laws of readers with a scan: waiting while it goes on, and skips.

ghost use Rattle.std.specs.Prelude.{◌≡◌, ℕ, true, ◌⊎◌, Result};
ghost use Rattle.winnow_parser.specs.Outcome.{Outcome, Fails, Refuses};
ghost use Rattle.winnow_reader.specs.Place.{bytes_at};
ghost use Rattle.winnow_reader.specs.State.{ReaderState};
ghost use Rattle.winnow_reader.specs.Reading.{Lacks};
ghost use Rattle.winnow_reader.specs.declared.next.Next.{Next};
ghost use Rattle.winnow_reader.specs.declared.next.ReadError.{ReadError};
ghost use Rattle.winnow_reader.specs.Answering.{ReadsNext, StaysTillWanted};
ghost use Rattle.winnow_reader.specs.Since.{ReadsOnSince};
ghost use Rattle.winnow_scan.specs.Scanning.{AwaitsMore};
ghost use Rattle.winnow_scan.specs.Waiting.{WaitsByScan};

use crate::Scan;
use winnow_reader::Record;

/// The law of waiting while a scan goes on: whatever the parser may answer of the bytes ahead, with
/// more to follow, it asks for more than came since, as it does when a `ByteReader` waits, or is
/// refused memory. It does nothing when called: its contract is the law.
pub fn scan_law<R: Record>()
    ensures { (f : ReaderState R) (answer : Outcome R.Output ℕ)
        → AwaitsMore (R.means f.parser) f.ahead
        → R.means f.parser true (bytes_at f.place f.ahead) answer
        → Lacks R.means f ⊎ (answer ≡ Fails Refuses) }
{}

/// The law of readers with a scan that skip: what was read since a place stays read when the next
/// record is read, and a value is read after it. `skip_law` says the same of pieces, of the end and
/// of what was skipped, for each reader. It does nothing when called: its contract is the law.
pub fn scan_skip_law<R: Scan>()
    ensures { (place : ℕ) (old new : ReaderState R)
        (result : Result (Next R.Output) (ReadError R.Error))
        → ReadsNext R.means (WaitsByScan R.means R.scanned) old result new
        → StaysTillWanted old result new → ReadsOnSince R.means place old result new }
{}
