//! Modes of a number, written as they print: `Incomplete(Size(3))`, `Backtrack(1)`, `Cut(2)`.
use crate::printed::shown;
use rows::{Fault, Words};
use std::alloc::Global;
use winnow_error::ErrMode;
use winnow_error::ErrMode::{Backtrack, Cut, Incomplete};
use winnow_stream::Needed;

// Returns the shortage that the words write after the first.
fn needed(input: &Words) -> Result<Needed, Fault> {
    match input.plain(1)? {
        "Unknown" => Ok(Needed::Unknown),
        "Size" => Ok(Needed::new(input.number(2)?)),
        _ => Err(Fault::NoSuchCall),
    }
}

fn mode(input: &Words) -> Result<ErrMode<usize>, Fault> {
    match input.plain(0)? {
        "Incomplete" => Ok(Incomplete(needed(input)?)),
        "Backtrack" => Ok(Backtrack(input.number(1)?)),
        "Cut" => Ok(Cut(input.number(1)?)),
        _ => Err(Fault::NoSuchCall),
    }
}

/// Answers a question about a mode.
pub fn answer(alloc: Global, question: &str, input: &Words) -> Result<String, Fault> {
    let mode = mode(input)?;
    let text = match question {
        "cut" => format!(in alloc; "{:?}", mode.cut())?,
        "backtrack" => format!(in alloc; "{:?}", mode.backtrack())?,
        "map_add_one" => format!(in alloc; "{:?}", mode.map(|n| n.saturating_add(1)))?,
        "map_is_one" => format!(in alloc; "{:?}", mode.map(|n| n == 1))?,
        "is_incomplete" => format!(in alloc; "{}", mode.is_incomplete())?,
        "into_inner" => format!(in alloc; "{:?}", mode.into_inner())?,
        format => return shown(alloc, format, &mode),
    };
    Ok(text)
}
