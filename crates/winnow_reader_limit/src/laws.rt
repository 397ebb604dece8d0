//! Laws of records with a limit: one answer, and how much each reader keeps.

ghost use Rattle.std.specs.Prelude.{ℕ, List, Result};
ghost use Rattle.winnow_parser.specs.Determined.{IsDetermined, Shows};
ghost use Rattle.winnow_reader.specs.State.{ReaderState, at_start, pushed, ended_after};
ghost use Rattle.winnow_reader.specs.declared.next.Next.{Next};
ghost use Rattle.winnow_reader.specs.declared.next.ReadError.{ReadError};
ghost use Rattle.winnow_reader.specs.Answering.{ReadsNext, WaitsByNeed, StaysTillWanted};
ghost use Rattle.winnow_reader_limit.specs.declared.limit.Limited.{Limited};
ghost use Rattle.winnow_reader_limit.specs.declared.limit.LimitedError.{LimitedError};
ghost use Rattle.winnow_reader_limit.specs.Within.{Within};
ghost use Rattle.winnow_reader.specs.Skips.{skipped};
ghost use Rattle.winnow_reader_limit.specs.Limit.{limit_of};
ghost use Rattle.winnow_reader_limit.specs.Bound.{IsBounded, WaitsWithin};
ghost use Rattle.winnow_scan.specs.Waiting.{WaitsByScan};
ghost use Rattle.winnow_reader_limit.specs.Scanned.{ScansWithin};

use winnow_reader::Record;
use winnow_scan::Scan;

/// The law of a deterministic record with a limit: it is deterministic too, so by
/// `determined_reading_law` each cut of an input has the same values, and the same records are too
/// long. It does nothing when called: its contract is the law.
pub fn determined_limit_law<R: Record, V>()
    ensures { (view : R.Output → V) (r : R) (greatest : ℕ) → IsDetermined (Shows view) (R.means r)
        → IsDetermined (Shows view) (Within greatest (R.means r)) }
{}

/// The law of what a reader keeps of a record with a limit. A reader wants at most a byte more than
/// a record may have: at the start, after a piece, at the end, after a skip, and after each call of
/// `read_next`. If that call needs more, at most as many bytes are ahead as a record may have. It
/// does nothing when called: its contract is the law.
pub fn limit_law<R: Record>()
    ensures start { (inner : R) (greatest : ℕ) → IsBounded (at_start (limit_of inner greatest)) }
    ensures kept { (f : ReaderState (Limited R)) (piece : List ℕ) (n : ℕ) → IsBounded f
        → IsBounded (pushed f piece) × IsBounded (ended_after f) × IsBounded (skipped f n) }
    ensures next { (old new : ReaderState (Limited R))
        (result : Result (Next R.Output) (ReadError (LimitedError R.Error)))
        → IsBounded old
        → ReadsNext (λ r. Within r.greatest (R.means r.inner))
        (WaitsByNeed (λ r. Within r.greatest (R.means r.inner))) old result new
        → StaysTillWanted old result new → IsBounded new × WaitsWithin old result new }
{}

/// The law of what a reader with a scan keeps of a record with a limit, by the words of
/// [`limit_law`], whose clauses `start` and `kept` speak of it too. A call of `read_next` wants at
/// most a byte more than a record may have, and if it needs more, at most as many bytes are ahead
/// as a record may have, also while the scan goes on. It does nothing when called: its contract is
/// the law.
pub fn scan_limit_law<R: Scan>()
    ensures { (old new : ReaderState (Limited R))
        (result : Result (Next R.Output) (ReadError (LimitedError R.Error)))
        → IsBounded old
        → ReadsNext (λ r. Within r.greatest (R.means r.inner))
        (WaitsByScan (λ r. Within r.greatest (R.means r.inner))
        (λ r bytes state. ScansWithin r.greatest (R.scanned r.inner) bytes state)) old result new
        → StaysTillWanted old result new → IsBounded new × WaitsWithin old result new }
{}
