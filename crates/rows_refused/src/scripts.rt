//! Scripts of calls, with or without a reset after them, and of searches, with memory refused.

use crate::cases::tell;
use crate::printing::gives;
use std::alloc::{AllocError, Global};
use winnow_match::Needles;
use winnow_script_run::Step::{Each, Finish, Mark, Next, Reset};
use winnow_script_run::{SearchStep, Step, run, run_and_reset, run_search};
use winnow_stream::NoSet;

const INPUT: &[u8] = b"abc";

const SCRIPT: [Step<NoSet>; 6] = [Next, Mark, Each, Reset(0), Mark, Finish];

const ANSWERS: &str =
    "[Token(Some(97)), Marked(0), Items([(0, 98), (1, 99)]), Done, Marked(1), Slice([98, 99])]";

fn runs(alloc: Global, input: &mut &[u8]) -> Result<bool, AllocError> {
    gives(run(alloc, input, &SCRIPT), ANSWERS)
}

/// A script that grows the answers, the marks and a list of items. When memory is refused, the
/// stream stands where it stood, and the script can be run again there.
pub fn run_script(alloc: Global) -> Result<bool, AllocError> {
    let mut input = INPUT;
    match runs(alloc, &mut input) {
        Ok(right) => Ok(right && input.is_empty()),
        Err(_) if input != INPUT => Ok(false),
        Err(_) => tell(
            true,
            runs(alloc, &mut input).unwrap_or(false) && input.is_empty(),
        ),
    }
}

fn looks(alloc: Global, input: &mut &[u8]) -> Result<bool, AllocError> {
    gives(run_and_reset(alloc, input, &SCRIPT), ANSWERS)
}

/// The same script, after which the stream goes back, whether memory was refused or not.
pub fn look_ahead(alloc: Global) -> Result<bool, AllocError> {
    let mut input = INPUT;
    match looks(alloc, &mut input) {
        Ok(right) => Ok(right && input == INPUT),
        Err(_) if input != INPUT => Ok(false),
        Err(_) => tell(
            true,
            looks(alloc, &mut input).unwrap_or(false) && input == INPUT,
        ),
    }
}

const SEARCH: [SearchStep<NoSet, &[u8]>; 6] = [
    SearchStep::Find(Needles::Two(b"c", b"bc")),
    SearchStep::Call(Mark),
    SearchStep::Call(Each),
    SearchStep::Compare(b"abcd"),
    SearchStep::Call(Next),
    SearchStep::Compare(b"bc"),
];

const FOUND: &str =
    "[Hit(Some(1..3)), Call(Marked(0)), Call(Items([(0, 97), (1, 98), (2, 99)])), Compared(Incomplete), Call(Token(Some(97))), Compared(Ok(2))]";

// What remains after these steps.
const BEHIND: &[u8] = b"bc";

fn searches(alloc: Global, input: &mut &[u8]) -> Result<bool, AllocError> {
    gives(run_search(alloc, input, &SEARCH), FOUND)
}

/// A script that also compares and searches. When memory is refused, the stream stands where it
/// stood, and the script can be run again there.
pub fn search_script(alloc: Global) -> Result<bool, AllocError> {
    let mut input = INPUT;
    match searches(alloc, &mut input) {
        Ok(right) => Ok(right && input == BEHIND),
        Err(_) if input != INPUT => Ok(false),
        Err(_) => tell(
            true,
            searches(alloc, &mut input).unwrap_or(false) && input == BEHIND,
        ),
    }
}
