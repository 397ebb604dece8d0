//! Rows of ranges of counts: conversions to a `Range`, counts in a range, and printed texts.

use rows::{Fault, Words};
use std::alloc::Global;
use std::ops::RangeBounds;
use winnow_count::Range;

// Makes a range through the bound.
fn range_of<C: Into<Range>>(counts: C) -> Range {
    counts.into()
}

// Returns whether a range has the count, called through the bound.
fn contains<R: RangeBounds<usize>>(range: &R, count: usize) -> bool {
    range.contains(&count)
}

// Reads a number.
fn number(digits: &str) -> Result<usize, Fault> {
    match digits {
        "usize::MAX" => Ok(usize::MAX),
        "usize::MAX-1" => Ok(usize::MAX - 1),
        _ => digits.parse::<usize>().map_err(|_| Fault::NoSuchCall),
    }
}

// Reads a range that ends with its end.
fn closed(start: &str, end: &str) -> Result<Range, Fault> {
    let end = number(end)?;
    if start.is_empty() {
        return Ok(range_of(..=end));
    }
    Ok(range_of(number(start)?..=end))
}

// Reads a range that ends before its end, or not at all.
fn open(start: &str, end: &str) -> Result<Range, Fault> {
    match (start.is_empty(), end.is_empty()) {
        (true, true) => Ok(range_of(..)),
        (true, false) => Ok(range_of(..number(end)?)),
        (false, true) => Ok(range_of(number(start)?..)),
        (false, false) => Ok(range_of(number(start)?..number(end)?)),
    }
}

// Reads the counts that a word writes: a number, or a range of any kind.
fn counts(words: &Words, index: usize) -> Result<Range, Fault> {
    let text = words.plain(index)?;
    match (text.split_once("..="), text.split_once("..")) {
        (Some((start, end)), _) => closed(start, end),
        (None, Some((start, end))) => open(start, end),
        (None, None) => Ok(range_of(number(text)?)),
    }
}

// Returns the debug text of a range, which its printed text must be too, under options and without
// them.
fn text(alloc: Global, range: &Range) -> Result<String, Fault> {
    let debugged = format!(in alloc; "{range:?}")?;
    let all = format!(in alloc; "{range:?} {range} {range:*>9.1} {range:#6.2?}")?;
    let wanted = format!(in alloc; "{debugged} {debugged} {debugged} {debugged}")?;
    if all == wanted {
        return Ok(debugged);
    }
    Ok(all)
}

// Returns the answer about a range and a count, or about two ranges.
fn of_two(alloc: Global, call: &str, words: &Words, range: &Range) -> Result<String, Fault> {
    let held = match call {
        "contains" => contains(range, number(words.plain(1)?)?),
        "eq" => *range == counts(words, 1)?,
        _ => return Err(Fault::NoSuchCall),
    };
    Ok(format!(in alloc; "{held}")?)
}

/// Returns the answer of a call on the counts that the first word writes.
pub fn answer(alloc: Global, call: &str, words: &Words) -> Result<String, Fault> {
    let range = counts(words, 0)?;
    match call {
        "Range::from" => text(alloc, &range),
        "start_bound" => {
            let bound = range.start_bound();
            Ok(format!(in alloc; "{bound:?}")?)
        }
        "end_bound" => {
            let bound = range.end_bound();
            Ok(format!(in alloc; "{bound:?}")?)
        }
        "least" => {
            let least = range.least();
            Ok(format!(in alloc; "{least}")?)
        }
        "greatest" => {
            let greatest = range.greatest();
            Ok(format!(in alloc; "{greatest:?}")?)
        }
        _ => of_two(alloc, call, words, &range),
    }
}
