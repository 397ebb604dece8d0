//! `take_in`, which takes in a piece and returns the width that no later step can reach.

ghost use Rattle.std.specs.Prelude.{◌≡◌, ℕ, ◌≤◌, ◌<◌, true, length, vec_len, IsTrue};
ghost use Rattle.winnow_script_attempt.specs.Looks.{piece_reading};
ghost use Rattle.winnow_script_feed.specs.Reach.{needed_place};
ghost use Rattle.winnow_script_feed.specs.NamedMarks.{KnowsMarks};
ghost use Rattle.winnow_script_feed.specs.JoinedInput.{MayGoOn, TakesIn, TakesPiece, KeepsLeast};
ghost use Rattle.winnow_script_feed.specs.JoinedInput.{KeepsNeeded, steps_left};

use crate::named_marks::NamedMarks;
use crate::progress::{Progress, advance};
use winnow_match::Finders;
use winnow_script_attempt::Kept;
use winnow_sets::AsChar;
use winnow_stream::{AsBStr, Stream, StreamIsPartial};

// Returns the place from which the remaining steps need the input, which ends at `end`. The marks
// are not considered if there are no more answers than `before`.
fn place_needed<T, L>(
    progress: &Progress<T, L>,
    named: &mut NamedMarks,
    before: usize,
    end: usize,
) -> usize
    requires least { KeepsNeeded before end progress.now }
    requires knows { KnowsMarks progress.now.script.now progress.now.marks.items
        (length progress.now.told.items) named.old }
    requires made { vec_len progress.now.marks ≤ vec_len progress.now.told }
    ensures least { result ≡ needed_place end progress.now.place progress.now.marks.items
        (steps_left progress.now) }
    ensures knows { KnowsMarks progress.now.script.now progress.now.marks.items
        (length progress.now.told.items) named.new }
{
    let told = progress.told.len();
    if told == before {
        return progress.base;
    }
    if told < progress.script.len() {
        match named.least(&progress.marks, told) {
            Some(least) => least.min(progress.place),
            None => progress.place,
        }
    } else {
        end
    }
}

/// Takes in a piece at the end of what is kept: appends the answers up to the first that is not
/// definite, and returns the width of the front that no remaining step can reach, for the caller to
/// drop.
pub(crate) fn take_in<'k, S: Kept, L: AsBStr>(
    progress: &mut Progress<'k, S::Token, L>,
    finders: &mut Option<Finders<'k>>,
    named: &mut NamedMarks,
    kept: S,
) -> usize
where
    S::Token: AsChar + Drop,
    S::Slice: Drop,
    requires valid { S.valid kept }
    requires more { IsTrue (S.expects_more kept) }
    requires left { vec_len progress.old.told < length progress.old.script.now }
    requires ready { MayGoOn true
        (piece_reading S.Token.code S.counts_shortage S.write L.text_bytes)
        (S.remaining kept)
        progress.old }
    requires least { (end : ℕ) → KeepsLeast end progress.old }
    requires knows { KnowsMarks progress.old.script.now progress.old.marks.items
        (length progress.old.told.items) named.old }
    ensures takes { TakesIn
        (piece_reading S.Token.code S.counts_shortage S.write L.text_bytes)
        (S.remaining kept)
        result progress.old progress.new }
    ensures piece { TakesPiece progress.old progress.new }
    ensures knows { KnowsMarks progress.new.script.now progress.new.marks.items
        (length progress.new.told.items) named.new }
{
    let before = progress.told.len();
    progress.pieces = progress.pieces.saturating_add(1);
    let piece = Some(progress.pieces);
    advance(progress, finders, kept, piece);
    let end = progress.base + kept.eof_offset();
    let least = place_needed(progress, named, before, end);
    let unneeded = least - progress.base;
    progress.base = least;
    unneeded
}
