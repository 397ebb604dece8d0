//! Rows of needles as data: the needle that may move a hit, and the length of the longest needle.

use rows::{Fault, Words};
use std::alloc::Global;
use winnow_match::{FindSlice, Needles, Stretch, stretch};

// Returns what could move the hit of the needles, if there is one.
#[tactic(auto, using(winnow_match::proofs::lemmas::AnswerLemmas::source_answers))]
fn moved_by(input: &[u8], needles: Needles<&[u8]>) -> Option<Option<Stretch>> {
    let hit = input.find_slice(needles)?;
    Some(stretch(input, &needles, &hit))
}

// Returns the needles that three words write, of which the last two may be missing.
fn needles<'w>(
    first: &'w str,
    second: Option<&'w str>,
    third: Option<&'w str>,
) -> Needles<&'w str> {
    match (second, third) {
        (Some(second), Some(third)) => Needles::Three(first, second, third),
        (Some(second), None) => Needles::Two(first, second),
        _ => Needles::One(first),
    }
}

// Returns the needles that the words from `start` on write.
fn written(words: &Words, start: usize) -> Result<Needles<&str>, Fault> {
    let second = words.text(start.saturating_add(1)).ok();
    let third = words.text(start.saturating_add(2)).ok();
    Ok(needles(words.text(start)?, second, third))
}

/// Returns what could move a hit: `None` if there is no hit, and `Some(None)` if nothing could.
pub fn movers(alloc: Global, words: &Words) -> Result<String, Fault> {
    let needles = written(words, 1)?;
    let moved = moved_by(words.bytes(0)?, needles.as_bytes());
    Ok(format!(in alloc; "{moved:?}")?)
}

/// Returns the length of the longest needle.
pub fn longest(alloc: Global, words: &Words) -> Result<String, Fault> {
    let longest = written(words, 0)?.as_bytes().longest();
    Ok(format!(in alloc; "{longest}")?)
}

/// Returns the debug text of needles as data.
pub fn text(alloc: Global, words: &Words) -> Result<String, Fault> {
    let needles = written(words, 0)?;
    Ok(format!(in alloc; "{needles:?}")?)
}
