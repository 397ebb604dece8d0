//! Tests of counts, and of the number of tokens in a front.

ghost use Rattle.std.specs.Prelude.{◌≡◌, ◌≤◌, ◌↔◌, IsTrue, length};
ghost use Rattle.winnow_stream.specs.Front.{is_offset, front};
ghost use Rattle.winnow_count.specs.CountRange.{least_count, greatest_count, is_up_to};
ghost use Rattle.winnow_token.specs.TakeUntil.{has_counts};

use winnow_count::Range;
use winnow_stream::Stream;

// The message for counts whose least is above the greatest.
pub(crate) const NO_COUNT: &str = "the least count must not be above the greatest";

// Returns whether the counts allow some number of tokens.
pub(crate) fn allow_some(counts: &Range) -> bool
    ensures { result ≡ is_up_to (greatest_count counts.now) (least_count counts.now) }
{
    match counts.greatest() {
        Some(greatest) => counts.least() <= greatest,
        None => true,
    }
}

// Returns whether the front of this width has at least `least` tokens.
pub(crate) fn has_tokens<I: Stream>(input: &I, end: usize, least: usize) -> bool
    requires valid { I.valid input.now }
    requires offset { IsTrue (is_offset (I.remaining input.now) end) }
    ensures { IsTrue result ↔ (least ≤ length (front (I.remaining input.now) end)) }
{
    match input.offset_at(least) {
        Ok(offset) => offset <= end,
        Err(_) => false,
    }
}

// Returns whether the front of this width has at most `greatest` tokens.
fn has_no_more<I: Stream>(input: &I, end: usize, greatest: usize) -> bool
    requires valid { I.valid input.now }
    requires offset { IsTrue (is_offset (I.remaining input.now) end) }
    ensures { IsTrue result ↔ (length (front (I.remaining input.now) end) ≤ greatest) }
{
    match input.offset_at(greatest) {
        Ok(offset) => end <= offset,
        Err(_) => true,
    }
}

// Returns whether the front of this width has a number of tokens that the counts allow.
pub(crate) fn has_counts<I: Stream>(input: &I, end: usize, counts: &Range) -> bool
    requires valid { I.valid input.now }
    requires offset { IsTrue (is_offset (I.remaining input.now) end) }
    ensures { result ≡ has_counts (least_count counts.now) (greatest_count counts.now)
        (I.remaining input.now) end }
{
    if !has_tokens(input, end, counts.least()) {
        return false;
    }
    match counts.greatest() {
        Some(greatest) => has_no_more(input, end, greatest),
        None => true,
    }
}
