//! Laws of readers: the same values for each cut, waiting, places, damaged text, and skips.

ghost use Rattle.std.specs.Prelude.{◌≡◌, ℕ, ◌+◌, ◌≤◌, ◌↔◌, List, [], ◌++◌, length, take, drop};
ghost use Rattle.std.specs.Prelude.{Bool, true, false, Result, Option, Some, option_map};
ghost use Rattle.std.specs.Prelude.{IsTrue, IsUtf8};
ghost use Rattle.std.specs.Borrow.{Bor};
ghost use Rattle.winnow_stream.specs.Source.{units};
ghost use Rattle.winnow_stream.specs.Front.{is_offset};
ghost use Rattle.winnow_parser.specs.Determined.{IsDetermined, Shows};
ghost use Rattle.winnow_reader.specs.State.{ReaderState, pushed, ended_after, waiting_for};
ghost use Rattle.winnow_parser.specs.Outcome.{Ahead, Moves, after};
ghost use Rattle.winnow_reader.specs.Place.{bytes_at, IsByteSlice};
ghost use Rattle.winnow_reader.specs.Reading.{HasRead};
ghost use Rattle.winnow_reader.specs.declared.next.Next.{Next};
ghost use Rattle.winnow_reader.specs.declared.next.ReadError.{ReadError};
ghost use Rattle.winnow_reader.specs.Answering.{WantsNeeded, StaysTillWanted, WaitsForNeeded};
ghost use Rattle.winnow_reader.specs.Answering.{ReadsNext, WaitsByNeed};
ghost use Rattle.winnow_reader.specs.Since.{HasReadSince, ReadsAlsoSince, ReadsThroughSince};
ghost use Rattle.winnow_reader.specs.Since.{ReadsOnSince};
ghost use Rattle.memchr.specs.Find.{FindsNeedle};
ghost use Rattle.winnow_reader.specs.declared.skipping.Skipped.TheVariants.{NeedsMore};
ghost use Rattle.winnow_reader.specs.Skips.{skipped, SkipsTo};
ghost use Rattle.winnow_reader.specs.SameValues.{AreFronts, AreAlike, IsThrough};
ghost use Rattle.winnow_reader.specs.InUtf8.{InUtf8, text_in, past_text, is_damaged, MeetsDamage};
ghost use Rattle.winnow_stream.specs.declared.needed.Needed.{Needed};
ghost use Rattle.winnow_error.specs.declared.failure.Failure.{Failure};
ghost use Rattle.winnow_reader.specs.declared.utf8_record.TextError.{TextError};
ghost use Rattle.winnow_reader.specs.TextTelling.{TellsDamage, IsDamageIfTold};

use crate::{Record, TextRecord};

/// The law of readers whose record has one answer to each question: of one joined input they read
/// the same values, however it was cut. While they read, the values of one are a front of the
/// other's; where both have come to the end, they are all the same. It does nothing when called:
/// its contract is the law.
pub fn determined_reading_law<R: Record, V>()
    ensures front { (view : R.Output → V) (f g : ReaderState R) (input : List ℕ)
        (xs ys : List R.Output) → IsDetermined (Shows view) (R.means f.parser)
        → f.parser ≡ g.parser → HasRead R.means f input xs → HasRead R.means g input ys
        → AreFronts (Shows view) xs ys }
    ensures whole { (view : R.Output → V) (f g : ReaderState R) (input : List ℕ)
        (xs ys : List R.Output) → IsDetermined (Shows view) (R.means f.parser)
        → f.parser ≡ g.parser → HasRead R.means f input xs → HasRead R.means g input ys
        → IsThrough f → IsThrough g → AreAlike (Shows view) xs ys }
{}

/// The law of waiting. Where a reader has all that it wanted, and needs more, its parser needs some
/// number of bytes; while fewer are pushed, the reader needs more again. It does nothing when
/// called: its contract is the law.
pub fn waiting_law<R: Record>()
    ensures { (old new later : ReaderState R) (piece : List ℕ)
        (next : Result (Next R.Output) (ReadError R.Error)) → old.ended ≡ false
        → old.wanted ≤ length old.ahead → WantsNeeded R.means old new
        → new ≡ waiting_for old new.wanted → StaysTillWanted (pushed new piece) next later
        → WaitsForNeeded R.means old piece next }
{}

/// The law of bytes at a place: they are known by the place and the bytes; where a parser moves on
/// from there, it stands at the rest of these bytes, as many places later as it took; and a slice,
/// such as a literal, a set, a search or a count gives, is the first bytes, and the others
/// follow it. It does nothing when called: its contract is the law.
pub fn bytes_at_law()
    ensures same { (p q : ℕ) (xs ys : List ℕ) → bytes_at p xs ≡ bytes_at q ys
        → (p ≡ q) × (xs ≡ ys) }
    ensures moved { (p : ℕ) (xs : List ℕ) (b : Ahead ℕ) → Moves (bytes_at p xs) b
        → (n : ℕ) × ((n ≤ length xs) × (b ≡ bytes_at (p + n) (drop n xs))) }
    ensures slice { (p : ℕ) (xs : List ℕ) (slice : Bor (List ℕ)) (n : ℕ)
        → IsTrue (is_offset (units xs) n) → IsByteSlice slice (units xs) n
        → (n ≤ length xs) × (slice.now ≡ take n xs)
        × (after (bytes_at p xs) n ≡ bytes_at (p + n) (drop n xs)) }
{}

/// The law of damage in text. Where no damage follows the text at the front of bytes, some more
/// bytes make all of them UTF-8; where damage follows it, no bytes make that text longer. It does
/// nothing when called: its contract is the law.
pub fn damage_law()
    ensures mends { (bytes : List ℕ) → is_damaged true (past_text bytes) ≡ false
        → (more : List ℕ) × IsUtf8 (bytes ++ more) }
    ensures stays { (bytes more : List ℕ) → is_damaged true (past_text bytes) ≡ true
        → text_in (bytes ++ more) ≡ text_in bytes }
{}

/// The law of records of text that have one answer to each question: read from bytes they have one
/// too, so `determined_reading_law` speaks of their readers. It does nothing when called: its
/// contract is the law.
pub fn determined_text_law<R: TextRecord, V>()
    ensures { (view : R.Output → V) (r : R) → IsDetermined (Shows view) (R.means r)
        → IsDetermined (Shows view) (InUtf8 (R.means r)) }
{}

/// The law of damage that is told: over bytes where a record of text with one answer to each
/// question meets damage, no failure carries an error but [`TextError::Damaged`]. The contract of
/// `read` of a `Utf8Record` says the other way, that it is told nowhere else. It does nothing when
/// called: its contract is the law.
///
/// [`TextError::Damaged`]: crate::TextError::Damaged
pub fn told_damage_law<R: TextRecord, V>()
    ensures { (view : R.Output → V) (r : R) (partial : Bool) (a left : Ahead ℕ)
        (failure : Failure (TextError R.Error) Needed) → IsDetermined (Shows view) (R.means r)
        → MeetsDamage (R.means r) partial a → TellsDamage (R.means r) partial a left failure
        → IsDamageIfTold failure }
{}

/// The law of readers that skip. What was read of the input is what was read since place 0; after
/// bytes were skipped, nothing was read since there; and what was read since a place stays read
/// when a piece comes, at the end, and when the next record is read, and a value is read after it.
/// So no value that came before or after is lost or changed by what was skipped. It does nothing
/// when called: its contract is the law.
pub fn skip_law<R: Record>()
    ensures whole { (f : ReaderState R) (input : List ℕ) (values : List R.Output)
        → HasRead R.means f input values ↔ HasReadSince R.means 0 f input values }
    ensures skipped { (f : ReaderState R) (n : ℕ)
        → HasReadSince R.means (f.place + n) (skipped f n) (drop n f.ahead) [] }
    ensures pushed { (place : ℕ) (f : ReaderState R) (piece : List ℕ) → f.ended ≡ false
        → ReadsAlsoSince R.means place f piece (pushed f piece) }
    ensures ended { (place : ℕ) (f : ReaderState R)
        → ReadsThroughSince R.means place f (ended_after f) }
    ensures next { (place : ℕ) (old new : ReaderState R)
        (result : Result (Next R.Output) (ReadError R.Error))
        → ReadsNext R.means (WaitsByNeed R.means) old result new
        → StaysTillWanted old result new → ReadsOnSince R.means place old result new }
{}

/// The law of skipping to a literal over pieces. The first occurrence stays the first if more bytes
/// follow; and if a reader needs more, the first occurrence in the bytes that it kept and those
/// that follow is the first one in all of them. So each literal ends a skip where the joined input
/// has it first, for each cut. It does nothing when called: its contract is the law.
pub fn skip_to_law()
    ensures stays { (ahead literal more : List ℕ) (first : ℕ)
        → FindsNeedle ahead literal 0 (Some first)
        → FindsNeedle (ahead ++ more) literal 0 (Some first) }
    ensures later { (ahead literal more : List ℕ) (n : ℕ) (found : Option ℕ)
        → SkipsTo literal false ahead (NeedsMore n)
        → FindsNeedle (drop n ahead ++ more) literal 0 found
        → FindsNeedle (ahead ++ more) literal 0 (option_map (λ first. n + first) found) }
{}
