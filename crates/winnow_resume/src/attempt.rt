//! One attempt of a parser with a recovery: `attempt`.

ghost use Rattle.std.specs.Prelude.{IfOk, IfErr, IfNone};
ghost use Rattle.winnow_parser.specs.Outcome.{Moves};
ghost use Rattle.winnow_parser.specs.Answer.{ahead, outcome};
ghost use Rattle.winnow_resume.specs.Recording.{RecordsOne};
ghost use Rattle.winnow_resume.specs.Failing.{AttemptErrors};
ghost use Rattle.winnow_resume.specs.ResumeAfter.{ResumesAfter};

use crate::following::recover_from;
use std::alloc::Global;
use winnow_error::FromRecoverableError;
use winnow_parser::{Failure, ModalResult, Parser};
use winnow_recover::Recover;
use winnow_stream::StreamIsPartial;

// Calls the parser, and after a failure the recovery. Returns `None` if the failure was recorded
// and skipped. `advances` says whether the recovery has to take some tokens.
pub(crate) fn attempt<I, E, P, R>(
    parser: &P,
    recover: &R,
    advances: bool,
    alloc: Global,
    input: &mut I,
) -> ModalResult<Option<P::Output>, E>
where
    I: StreamIsPartial + Recover<E>,
    E: FromRecoverableError<I, E> + Drop,
    P: Parser<I, E>,
    R: Parser<I, E, Output = ()>,
    requires parser { P.ready parser.now }
    requires recover { R.ready recover.now }
    requires valid { I.valid input.old }
    ensures means { ResumesAfter advances I.supports_recovery (P.means parser.now)
        (R.means recover.now) (I.expects_more input.old) (ahead I.location I.remaining input.old)
        (outcome result (ahead I.location I.remaining input.new)) }
    ensures onward { Moves (ahead I.location I.remaining input.old)
        (ahead I.location I.remaining input.new) }
    ensures error { IfErr result (AttemptErrors (ahead I.location I.remaining)
        (ahead I.Checkpoint.location I.remained) I.keeps I.refuses E.recovered I.supports_recovery
        (P.means parser.now) (P.errors parser.now) (R.means recover.now) advances
        (I.expects_more input.old) (ahead I.location I.remaining input.old) input.new) }
    ensures valid { I.valid input.new }
    ensures kept { I.keeps input.old input.new }
    ensures told { IfOk result (λ value. IfNone value (RecordsOne (ahead I.location I.remaining)
        (ahead I.Checkpoint.location I.remained) I.keeps I.records (P.means parser.now)
        (P.errors parser.now) (R.means recover.now) (I.expects_more input.old)
        input.old input.new)) }
{
    let start = input.checkpoint();
    match parser.parse_next(alloc, input) {
        Ok(value) => Ok(Some(value)),
        Err(Failure::Incomplete(needed)) => Err(Failure::Incomplete(needed)),
        Err(Failure::Refused(refused)) => Err(Failure::Refused(refused)),
        Err(Failure::Backtrack(error)) => {
            match recover_from(recover, advances, alloc, input, &start, error) {
                Ok(Ok(())) => Ok(None),
                Ok(Err(error)) => Err(Failure::Backtrack(error)),
                Err(failure) => Err(failure),
            }
        }
        Err(Failure::Cut(error)) => {
            match recover_from(recover, advances, alloc, input, &start, error) {
                Ok(Ok(())) => Ok(None),
                Ok(Err(error)) => Err(Failure::Cut(error)),
                Err(failure) => Err(failure),
            }
        }
    }
}
