//! Errors that a stream records, or gives back.
ghost use Rattle.std.specs.Prelude.{◌≡◌, OnOk, OnErr, false, [], ◌∷◌, ◌++◌, IsTrue, drop};
ghost use Rattle.winnow_stream.specs.Checkpoint.{checkpoint_inner};
ghost use Rattle.winnow_stream.specs.Source.{first_token};
ghost use Rattle.winnow_stream.specs.Front.{is_offset, IsSomeFront};
ghost use Rattle.winnow_recover.specs.Recovering.{recoverable_inner, recorded_errors};
ghost use Rattle.winnow_recover.specs.Recovering.{records_errors};

use std::fmt::Debug;
use winnow_error::{EmptyError, ErrMode, FromRecoverableError, ParserError};
use winnow_recover::{RecordError, Recover, Recoverable};
use winnow_stream::{Checkpoint, Stream, UpdateSlice};

/// The errors that rows record.
pub type Mode = ErrMode<EmptyError>;

/// Records an error. Afterwards there is one more error at the end, or the errors are as before,
/// and the stream inside stays in both cases.
pub fn recorded<I, E, R>(s: &mut Recoverable<I, R>, err: E) -> Result<(), RecordError<E>>
where
    I: Stream,
    E: ParserError<Recoverable<I, R>>,
    R: FromRecoverableError<Recoverable<I, R>, E> + Debug,
    requires { I.valid (recoverable_inner s.old) }
    ensures ok { OnOk result ((e : R) × (recorded_errors s.new ≡ recorded_errors s.old ++ e ∷ [])) }
    ensures err { OnErr result (recorded_errors s.new ≡ recorded_errors s.old) }
    ensures input { recoverable_inner s.new ≡ recoverable_inner s.old }
    ensures kind { records_errors s.new ≡ records_errors s.old }
{
    let here = s.checkpoint();
    s.record_err(&here, &here, err)
}

/// Takes a slice and a token, and the rest, and goes to a checkpoint: none of these calls adds an
/// error, or loses one.
pub fn read_past_errors<I: Stream, E: Debug>(
    s: &mut Recoverable<I, E>,
    offset: usize,
    checkpoint: &Checkpoint<I::Checkpoint, Recoverable<I, E>>,
)
where
    I::Token: Drop,
    I::Slice: Drop,
    requires valid { I.valid (recoverable_inner s.old) }
    requires offset { IsTrue (is_offset (I.remaining (recoverable_inner s.old)) offset) }
    requires checkpoint { I.valid_checkpoint (checkpoint_inner checkpoint.now) }
    ensures errors { recorded_errors s.new ≡ recorded_errors s.old }
    ensures kind { records_errors s.new ≡ records_errors s.old }
    ensures kept { I.keeps (recoverable_inner s.old) (recoverable_inner s.new) }
{
    let _ = s.next_slice(offset);
    let _ = s.next_token();
    let _ = s.finish();
    s.reset(checkpoint);
}

/// Narrows a stream to a slice: its errors stay.
pub fn narrow_past_errors<I: UpdateSlice, E: Debug>(
    s: Recoverable<I, E>,
    inner: I::Slice,
    at: &Checkpoint<I::Checkpoint, Recoverable<I, E>>,
) -> Recoverable<I, E>
    requires valid { I.valid (recoverable_inner s) }
    requires checkpoint { I.valid_checkpoint (checkpoint_inner at.now) }
    requires is_prefix { IsSomeFront I.is_slice inner (I.remained (checkpoint_inner at.now)) }
    ensures errors { recorded_errors result ≡ recorded_errors s }
    ensures kind { records_errors result ≡ records_errors s }
{
    s.update_slice(inner, at)
}

/// Takes a token from the stream inside. Whatever reads that stream, the errors stay.
pub fn read_inside<I: Stream, E>(s: &mut Recoverable<I, E>) -> Option<I::Token>
    requires { I.valid (recoverable_inner s.old) }
    ensures token { result ≡ first_token (I.remaining (recoverable_inner s.old)) }
    ensures remains { I.remaining (recoverable_inner s.new)
        ≡ drop 1 (I.remaining (recoverable_inner s.old)) }
    ensures errors { recorded_errors s.new ≡ recorded_errors s.old }
    ensures kind { records_errors s.new ≡ records_errors s.old }
{
    s.inner_mut().next_token()
}

/// Returns whether a stream without recovery gives the error back and says that it has no recovery.
/// The stream stays as it was.
pub fn refuses<S: Recover<E>, E: Copy + PartialEq>(s: &mut S, err: E) -> bool
    requires valid { S.valid s.old }
    requires unsupported { S.supports_recovery ≡ false }
    ensures refused { result ≡ E.eq err err }
    ensures remains { S.remaining s.new ≡ S.remaining s.old }
    ensures kept { S.keeps s.old s.new }
    ensures valid { S.valid s.new }
{
    let here = s.checkpoint();
    let answer = s.record_err(&here, &here, err);
    if S::is_recovery_supported() {
        return false;
    }
    match answer {
        Err(RecordError::Refused(back)) => back == err,
        Err(RecordError::OutOfMemory(_)) | Ok(()) => false,
    }
}
