//! What follows a failure: `recover_from` calls the recovery and records the error.

ghost use Rattle.std.specs.Prelude.{◌≡◌};
ghost use Rattle.winnow_parser.specs.Outcome.{Moves};
ghost use Rattle.winnow_parser.specs.Answer.{ahead};
ghost use Rattle.winnow_resume.specs.Failing.{FollowsFailure, GoesBack, IsError};

use std::alloc::{AllocError, Global};
use winnow_error::FromRecoverableError;
use winnow_parser::{Failure, ModalResult, Parser};
use winnow_recover::{RecordError, Recover};
use winnow_stream::StreamIsPartial;

// Calls the recovery where a parser failed, and records the error where the recovery ends. Returns
// the error if it is not recorded. `advances` says whether the recovery has to take some tokens.
fn record_after<I: StreamIsPartial + Recover<E>, E: Drop, R: Parser<I, E, Output = ()>>(
    recover: &R,
    advances: bool,
    alloc: Global,
    input: &mut I,
    start: &I::Checkpoint,
    at: &I::Checkpoint,
    error: E,
) -> ModalResult<Result<(), E>, E>
    requires ready { R.ready recover.now }
    requires valid { I.valid input.old }
    ensures answer { FollowsFailure (ahead I.location I.remaining) I.keeps I.refuses I.records
        (IsError error) I.supports_recovery (R.means recover.now) advances
        (I.expects_more input.old) start.now at.now error input.old result input.new }
    ensures onward { Moves (ahead I.location I.remaining input.old)
        (ahead I.location I.remaining input.new) }
    ensures valid { I.valid input.new }
    ensures kept { I.keeps input.old input.new }
{
    if !I::is_recovery_supported() {
        return Ok(Err(error));
    }
    let before = input.eof_offset();
    match recover.parse_next(alloc, input) {
        Ok(()) => {}
        Err(Failure::Incomplete(needed)) => return Err(Failure::Incomplete(needed)),
        Err(Failure::Refused(refused)) => return Err(Failure::Refused(refused)),
        Err(Failure::Backtrack(_)) => return Ok(Err(error)),
        Err(Failure::Cut(_)) => return Ok(Err(error)),
    }
    if advances && before <= input.eof_offset() {
        return Ok(Err(error));
    }
    match input.record_err(start, at, error) {
        Ok(()) => Ok(Ok(())),
        Err(RecordError::Refused(error)) => Ok(Err(error)),
        Err(RecordError::OutOfMemory(_)) => Err(Failure::Refused(AllocError)),
    }
}

// Calls the recovery where a parser failed that began at `start`, and records the error. If it is
// not recorded, goes back to where the parser failed, and returns what the stream makes of it.
pub(crate) fn recover_from<I, E, R>(
    recover: &R,
    advances: bool,
    alloc: Global,
    input: &mut I,
    start: &I::Checkpoint,
    error: E,
) -> ModalResult<Result<(), E>, E>
where
    I: StreamIsPartial + Recover<E>,
    E: FromRecoverableError<I, E> + Drop,
    R: Parser<I, E, Output = ()>,
    requires ready { R.ready recover.now }
    requires valid { I.valid input.old }
    ensures answer { (at : I.Checkpoint)
        × ((ahead I.Checkpoint.location I.remained at ≡ ahead I.location I.remaining input.old)
        × FollowsFailure (ahead I.location I.remaining) I.keeps I.refuses I.records
        (GoesBack (ahead I.location I.remaining) E.recovered start.now at error input.old)
        I.supports_recovery (R.means recover.now) advances
        (I.expects_more input.old) start.now at error input.old result input.new) }
    ensures onward { Moves (ahead I.location I.remaining input.old)
        (ahead I.location I.remaining input.new) }
    ensures valid { I.valid input.new }
    ensures kept { I.keeps input.old input.new }
{
    let at = input.checkpoint();
    match record_after(recover, advances, alloc, input, start, &at, error) {
        Ok(Ok(())) => Ok(Ok(())),
        Ok(Err(error)) => {
            input.reset(&at);
            Ok(Err(E::from_recoverable_error(start, &at, input, error)))
        }
        Err(failure) => Err(failure),
    }
}
