//! The steps of a row, as a script that is fed.

use crate::asked::{answers, asked_of};
use rows::{Fault, Words};
use std::alloc::{AllocError, Global};
use winnow_script_feed::{ByteFeed, TextFeed, run_pieces, run_pieces_text};
use winnow_script_lines::{Contents, Lines, ScriptStep, lend_steps, read_steps};
use winnow_script_run::SearchStep;
use winnow_sets::CharSet;

// Returns the steps as lines.
fn lines(alloc: Global, steps: &str) -> Result<String, AllocError> {
    let mut lines = String::new(alloc);
    for step in steps.split("; ") {
        lines.push_str(step)?;
        lines.push('\n')?;
    }
    Ok(lines)
}

// Reads the steps of the second word.
fn steps<'s, L: Contents>(alloc: Global, words: &Words) -> Result<Vec<ScriptStep<'s, L>>, Fault> {
    let text = lines(alloc, words.text(1)?)?;
    let mut lines = Lines::new(text.as_str().as_bytes());
    let steps = read_steps(alloc, &mut lines)?;
    if lines.is_empty() {
        return Ok(steps);
    }
    Err(Fault::NoSuchCall)
}

// Runs a script over three pieces.
fn run_over_three(
    alloc: Global,
    steps: &[SearchStep<CharSet<'_>, &[u8]>],
) -> Result<String, AllocError> {
    let finished = run_pieces(alloc, steps, &[b"ab", b"c", b"de"])?;
    answers(alloc, &finished, true)
}

// Runs a script over three pieces of text.
fn run_over_three_texts(
    alloc: Global,
    steps: &[SearchStep<CharSet<'_>, &str>],
) -> Result<String, AllocError> {
    let finished = run_pieces_text(alloc, steps, &["a", "é", "1ß"])?;
    answers(alloc, &finished, true)
}

/// Returns the text of what a call asks of a script over bytes.
pub fn of_bytes(alloc: Global, call: &str, words: &Words) -> Result<String, Fault> {
    let owned = steps::<Vec<u8>>(alloc, words)?;
    let steps = lend_steps(alloc, owned.as_slice())?;
    if call == "run_pieces" {
        return Ok(run_over_three(alloc, steps.as_slice())?);
    }
    asked_of(alloc, ByteFeed::new(alloc, steps.as_slice())?, call, words)
}

/// Returns the text of what a call asks of a script over text.
pub fn of_text(alloc: Global, call: &str, words: &Words) -> Result<String, Fault> {
    let owned = steps::<String>(alloc, words)?;
    let steps = lend_steps(alloc, owned.as_slice())?;
    if call == "run_pieces" {
        return Ok(run_over_three_texts(alloc, steps.as_slice())?);
    }
    asked_of(alloc, TextFeed::new(alloc, steps.as_slice())?, call, words)
}
