//! Generic code over any error, with what its contracts promise.
ghost use Rattle.std.specs.Prelude.{◌≡◌, IfOk, IsOk, OnErr};

use std::alloc::{AllocError, Global};
use winnow_error::{
    AddContext, AssociativeOr, ErrorConvert, FromExternalError, FromRecoverableError, ModalError,
    ParserError,
};
use winnow_error_context::StrContext;
use winnow_stream::{Needed, Stream};

/// Returns, for an error made in each of three ways, whether another alternative may be tried and
/// whether more input is needed.
pub fn kinds<I: Stream, E: ParserError<I>>(alloc: Global, input: &I) -> [(bool, bool); 3] {
    let failed = E::from_input(alloc, input);
    let misused = E::assert(alloc, input, "misused");
    let cut_short = E::incomplete(alloc, input, Needed::Unknown);
    [
        (failed.is_backtrack(), failed.is_incomplete()),
        (misused.is_backtrack(), misused.is_incomplete()),
        (cut_short.is_backtrack(), cut_short.needed().is_some()),
    ]
}

/// Returns the inner error of three alternatives that failed where the input stands.
pub fn fail_thrice<I: Stream, E: AssociativeOr<I>>(
    alloc: Global,
    input: &I,
) -> Result<Option<E::Inner>, AllocError>
where
    requires { I.valid input.now }
{
    let start = input.checkpoint();
    let first = E::from_input(alloc, input);
    let (second, third) = (E::from_input(alloc, input), E::from_input(alloc, input));
    let all = or_three::<I, E>(alloc, first, second, third)?;
    match all.append(alloc, input, &start)?.into_inner() {
        Ok(inner) => Ok(Some(inner)),
        Err(_) => Ok(None),
    }
}

/// Returns the error of three alternatives, joined from the left. It is the same as from the right.
pub fn join_three<I: Stream, E: AssociativeOr<I>>(alloc: Global, a: E, b: E, c: E) -> E
    ensures { result ≡ E.joined a (E.joined b c) }
{
    a.join(alloc, b).join(alloc, c)
}

/// Returns the same by `or`, which is never refused memory.
pub fn or_three<I: Stream, E: AssociativeOr<I>>(
    alloc: Global,
    a: E,
    b: E,
    c: E,
) -> Result<E, AllocError>
    ensures answered { IsOk result }
    ensures joined { IfOk result (λ r. r ≡ E.joined a (E.joined b c)) }
{
    a.or(alloc, b)?.or(alloc, c)
}

/// Returns an error that is cut twice, and then backtracks again.
pub fn cut_and_back<E: ModalError>(e: E) -> E
    ensures { result ≡ E.backtrack_of (E.cut_of e) }
{
    e.cut().cut().backtrack().backtrack()
}

/// Returns the error with a context where the input stands.
pub fn in_context<I: Stream, C, E: AddContext<I, C>>(
    alloc: Global,
    e: E,
    input: &I,
    context: C,
) -> Result<E, AllocError>
where
    requires { I.valid input.now }
    ensures err { OnErr result E.add_context_refusable }
{
    let start = input.checkpoint();
    e.add_context(alloc, input, &start, context)
}

/// Returns what is recorded of an error from which a parser recovers where it began.
pub fn recover_at<I: Stream, E, R: FromRecoverableError<I, E>>(input: &I, e: E) -> R
where
    requires { I.valid input.now }
{
    let start = input.checkpoint();
    R::from_recoverable_error(&start, &start, input, e)
}

/// Returns an error of another library.
pub fn blame<I, X, E: FromExternalError<I, X>>(alloc: Global, input: &I, cause: X) -> E
    ensures { E.from_external_gives input.now cause result }
{
    E::from_external_error(alloc, input, cause)
}

/// Returns the last of three alternatives: an error of another library, with a context elsewhere,
/// from which a parser recovered.
pub fn tell_last<I: Stream, E>(alloc: Global, input: &I, elsewhere: &I) -> Result<E, AllocError>
where
    E: AssociativeOr<I> + AddContext<I, StrContext> + FromExternalError<I, String>,
    E: FromRecoverableError<I, E>,
    requires input { I.valid input.now }
    requires elsewhere { I.valid elsewhere.now }
{
    let (start, there) = (input.checkpoint(), elsewhere.checkpoint());
    let cause = String::from_str(alloc, "bad digit")?;
    let error = E::from_external_error(alloc, input, cause);
    let told = error.add_context(alloc, elsewhere, &there, StrContext::Label("number"))?;
    let last = E::from_recoverable_error(&start, &start, input, told);
    let (first, second) = (E::from_input(alloc, input), E::from_input(alloc, elsewhere));
    Ok(join_three::<I, E>(alloc, first, second, last))
}

/// Returns the error, converted to another type.
pub fn convert_to<F, E: ErrorConvert<F>>(alloc: Global, e: E) -> Result<F, AllocError>
    ensures ok { IfOk result (E.convert_gives e) }
    ensures err { OnErr result E.convert_refusable }
{
    e.convert(alloc)
}
