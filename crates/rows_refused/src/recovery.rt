//! Errors that a `Recoverable` stream records while memory may be refused.

use crate::cases::tell;
use std::alloc::{AllocError, Global};
use winnow_error::ErrMode::{Backtrack, Cut};
use winnow_error::{EmptyError, ErrMode};
use winnow_recover::{RecordError, Recover, Recoverable};
use winnow_stream::Stream;

type Mode = ErrMode<EmptyError>;

// More errors than fit in the room of a first growth.
const ERRORS: [Mode; 6] = [
    Backtrack(EmptyError),
    Cut(EmptyError),
    Cut(EmptyError),
    Backtrack(EmptyError),
    Cut(EmptyError),
    Backtrack(EmptyError),
];

// Records all errors, and returns whether one was refused. A refused error comes back, and is then
// recorded. Returns `None` where that fails.
fn record_all<S: Recover<Mode>>(s: &mut S) -> Option<bool>
    requires { S.valid s.old }
{
    let here = s.checkpoint();
    let mut refused = false;
    for error in ERRORS {
        match s.record_err(&here, &here, error) {
            Ok(()) => {}
            Err(RecordError::OutOfMemory(back)) => {
                refused = true;
                if back != error || s.record_err(&here, &here, back).is_err() {
                    return None;
                }
            }
            Err(RecordError::Refused(_)) => return None,
        }
    }
    Some(refused)
}

// Records all errors over an input. A refused error comes back, and is then recorded after those
// from before.
fn record_over<I: Stream + Copy + PartialEq + Drop>(
    alloc: Global,
    input: I,
) -> Result<bool, AllocError>
    requires { I.valid input }
{
    let mut s: Recoverable<I, Mode> = Recoverable::new(alloc, input);
    let recorded = record_all(&mut s);
    let (rest, errors) = s.into_parts();
    match recorded {
        Some(refused) => tell(
            refused,
            rest == input && errors.as_slice() == ERRORS.as_slice(),
        ),
        None => Ok(false),
    }
}

/// Errors that are recorded, of which some grow the list.
pub fn record_err(alloc: Global) -> Result<bool, AllocError> {
    record_over(alloc, "12x")
}
