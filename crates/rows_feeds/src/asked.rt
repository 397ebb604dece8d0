//! What rows ask of a feed.

use crate::feeds::Feed;
use rows::{Fault, Words};
use std::alloc::{AllocError, Global};
use std::fmt::Debug;
use winnow_script_feed::Finished;

// The number of words before the pieces: the kind and the steps.
const BEFORE: usize = 2;

// Returns the number of bytes that are kept at the start; after each piece the numbers of answers
// that came out, of bytes that are kept, and of steps attempted so far; and after all the numbers
// of bytes that were fed and of answers that are out.
fn course<F: Feed>(alloc: Global, feed: &mut F, words: &Words) -> Result<String, Fault> {
    let mut line = format!(in alloc; "{}", feed.counts().1)?;
    for index in BEFORE..words.len() {
        let came = feed.take(words, index)?;
        let (_, held, tried, _) = feed.counts();
        line = format!(in alloc; "{line}; {came} {held} {tried}")?;
    }
    let (fed, _, _, out) = feed.counts();
    Ok(format!(in alloc; "{line}; of {fed} {out}")?)
}

// Returns what the feed waits for at the start and after each piece.
fn waits<F: Feed>(alloc: Global, feed: &mut F, words: &Words) -> Result<String, Fault> {
    let mut line = feed.waits(alloc)?;
    for index in BEFORE..words.len() {
        feed.take(words, index)?;
        let waiting = feed.waits(alloc)?;
        line = format!(in alloc; "{line} {waiting}")?;
    }
    Ok(line)
}

// Feeds all pieces.
fn feed_all<F: Feed>(feed: &mut F, words: &Words) -> Result<(), Fault> {
    for index in BEFORE..words.len() {
        feed.take(words, index)?;
    }
    Ok(())
}

// Feeds the piece that is the last word, as often as the word before it says.
fn feed_often<F: Feed>(feed: &mut F, words: &Words) -> Result<(), Fault> {
    let piece = BEFORE + 1;
    for _ in 0..words.number(BEFORE)? {
        feed.take(words, piece)?;
    }
    Ok(())
}

// Returns the numbers of bytes that are kept, of attempted steps and of answers that are out.
fn counts<F: Feed>(alloc: Global, feed: &F) -> Result<String, AllocError> {
    let (_, held, tried, out) = feed.counts();
    format!(in alloc; "{held} {tried} {out}")
}

/// Returns each answer and then the final place: the answer with the number of its piece, or with 0
/// at the end, if this is wanted.
pub fn answers<T: Debug>(
    alloc: Global,
    finished: &Finished<T>,
    numbered: bool,
) -> Result<String, AllocError> {
    let mut line = String::new(alloc);
    for told in finished.answers() {
        let answer = &told.answer;
        line = if numbered {
            format!(in alloc; "{line}{} {answer:?}; ", told.piece.unwrap_or(0))?
        } else {
            format!(in alloc; "{line}{answer:?}; ")?
        };
    }
    format!(in alloc; "{line}at {}", finished.cursor())
}

/// Feeds the pieces, and returns the text of what a call asks.
pub fn asked_of<F: Feed>(
    alloc: Global,
    mut feed: F,
    call: &str,
    words: &Words,
) -> Result<String, Fault> {
    match call {
        "course" => return course(alloc, &mut feed, words),
        "waits" => return waits(alloc, &mut feed, words),
        "counts of many" => feed_often(&mut feed, words)?,
        _ => feed_all(&mut feed, words)?,
    }
    match call {
        "counts" | "counts of many" => Ok(counts(alloc, &feed)?),
        "answers" => Ok(answers(alloc, &feed.finished(), false)?),
        "numbered" => Ok(answers(alloc, &feed.finished(), true)?),
        _ => Err(Fault::NoSuchCall),
    }
}
