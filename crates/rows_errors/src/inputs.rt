//! An error at an input, alone and in a mode: what becomes of the input.
use crate::printed::debugged;
use rows::{Fault, Words};
use std::alloc::Global;
use winnow_error::ErrMode::{Backtrack, Cut, Incomplete};
use winnow_error::{ErrMode, InputError};
use winnow_stream::Needed;

// Returns the mode of an error at a text.
fn mode(input: &Words) -> Result<ErrMode<InputError<&str>>, Fault> {
    match input.plain(0)? {
        "Backtrack" => Ok(Backtrack(InputError::at(input.text(1)?))),
        "Cut" => Ok(Cut(InputError::at(input.text(1)?))),
        "Incomplete" => Ok(Incomplete(Needed::Unknown)),
        _ => Err(Fault::NoSuchCall),
    }
}

// Returns an error that owns its bytes, or its text.
fn owned(alloc: Global, input: &Words) -> Result<String, Fault> {
    match input.text(0) {
        Ok(text) => debugged(alloc, "", &InputError::at(text).into_owned(alloc)?),
        Err(_) => debugged(
            alloc,
            "",
            &InputError::at(input.bytes(0)?).into_owned(alloc)?,
        ),
    }
}

/// Answers a question about an error at an input.
pub fn answer(alloc: Global, question: &str, input: &Words) -> Result<String, Fault> {
    match question {
        "map_input" => {
            let mapped = InputError::at(input.text(0)?).map_input(|text: &str| text.len());
            debugged(alloc, "", &mapped)
        }
        "map_input_of_mode" => {
            let mapped = mode(input)?.map_input(|text: &str| text.len());
            debugged(alloc, "", &mapped)
        }
        "into_owned" => owned(alloc, input),
        _ => Err(Fault::NoSuchCall),
    }
}
