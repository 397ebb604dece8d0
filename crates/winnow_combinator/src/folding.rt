//! The loop of `verify_fold` and `try_fold`, `fold_all`, and the two ways in which its step may
//! refuse a value.

ghost use Rattle.std.specs.Prelude.{◌<◌, ◌^◌, Result, IfErr};
ghost use Rattle.winnow_stream.specs.Source.{width};
ghost use Rattle.winnow_parser.specs.Outcome.{Moves};
ghost use Rattle.winnow_parser.specs.Answer.{ahead, outcome};
ghost use Rattle.winnow_combinator.specs.Appended.{AppendedErrorsIf, needs_some};
ghost use Rattle.winnow_combinator.specs.Counts.{Ascends};
ghost use Rattle.winnow_combinator.specs.Misuse.{TakingErrors, GatheredErrors};
ghost use Rattle.winnow_combinator.specs.Repeat.{RepeatErrors};
ghost use Rattle.winnow_combinator.specs.TryFold.{TriesFold, TryFoldErrors};
ghost use Rattle.winnow_combinator.specs.VerifyFold.{TakesIfSome};

use crate::again::{Advancing, one_more};
use crate::counts::Counts;
use std::alloc::Global;
use winnow_error::{FromExternalError, ParserError};
use winnow_parser::{Failure, ModalResult, Parser};
use winnow_stream::{Stream, StreamIsPartial};

// A step of a fold, which takes a value or refuses it; the error of a refused value is an `E`.
pub(crate) trait FoldStep<I: Stream, E, W, T> {
    // Why a value is refused.
    type Cause;

    // It may be asked to take values.
    ghost ready: { Self → Type 0 };

    // What it makes of the result so far and a value.
    ghost gives: { Self → W → T → Result W Self.Cause → Type 0 };

    // The errors for a cause, made of the stream.
    ghost tells: { Self.Cause → I → E → Type 0 };

    // Takes one more value, or refuses it.
    fn step(&self, whole: W, value: T) -> Result<W, Self::Cause>
        requires { ready self.now }
        ensures { gives self.now whole value result };

    // Returns the error of a value that was refused.
    fn tell(alloc: Global, input: &I, cause: Self::Cause) -> E
        ensures { Self.tells cause input.now result };
}

// A function that makes nothing if it refuses a value.
#[derive_where(Clone, Copy)]
pub(crate) struct Verifying<'a, F> {
    pub(crate) op: &'a F,
}

impl<I: Stream, E: ParserError<I>, W, T, F: Fn(W, T) -> Option<W>> FoldStep<I, E, W, T>
    for Verifying<'_, F> {
    type Cause = ();

    ghost ready = { λ s. F.IsAlwaysCallable s.op.now };

    ghost gives = { λ s whole value made. TakesIfSome (F.post s.op.now whole value) made };

    ghost tells = { λ _ input e. E.from_input_gives input e };

    fn step(&self, whole: W, value: T) -> Result<W, ()> {
        match (self.op)(whole, value) {
            Some(made) => Ok(made),
            None => Err(()),
        }
    }

    fn tell(alloc: Global, input: &I, _cause: ()) -> E {
        E::from_input(alloc, input)
    }
}

// A function that fails if it refuses a value.
#[derive_where(Clone, Copy)]
pub(crate) struct Trying<'a, F> {
    pub(crate) op: &'a F,
}

impl<I: Stream, X, E: FromExternalError<I, X>, W, T, F: Fn(W, T) -> Result<W, X>> FoldStep<
    I,
    E,
    W,
    T,
> for Trying<'_, F> {
    type Cause = X;

    ghost ready = { λ s. F.IsAlwaysCallable s.op.now };

    ghost gives = { λ s. F.post s.op.now };

    ghost tells = { λ cause input e. E.from_external_gives input cause e };

    fn step(&self, whole: W, value: T) -> Result<W, X> {
        (self.op)(whole, value)
    }

    fn tell(alloc: Global, input: &I, cause: X) -> E {
        E::from_external_error(alloc, input, cause)
    }
}

// A parser that is asked again and again, with a start and a step that fold its values.
#[derive_where(Clone, Copy; S)]
pub(crate) struct Folding<'a, P, N, S> {
    pub(crate) counts: Counts,
    pub(crate) parser: &'a P,
    pub(crate) init: &'a N,
    pub(crate) step: S,
}

// Asks the parser until it backtracks or has given the greatest count of values, and folds them.
// If the step refuses one, the stream is reset to where that value began.
pub(crate) fn fold_all<
    I: StreamIsPartial,
    E: ParserError<I>,
    P: Parser<I, E>,
    W: Drop,
    N: Fn() -> W,
    S: FoldStep<I, E, W, P::Output>,
>(fold: &Folding<P, N, S>, alloc: Global, input: &mut I) -> ModalResult<W, E>
where
    P::Output: Drop,
    requires parser { P.ready fold.now.parser.now }
    requires init { N.IsAlwaysCallable fold.now.init.now }
    requires step { S.ready fold.now.step }
    requires ascend { Ascends fold.now.counts.least fold.now.counts.greatest }
    requires valid { I.valid input.old }
    requires room { width (I.remaining input.old) < 2 ^ 64 }
    ensures means { TriesFold fold.now.counts.least fold.now.counts.greatest E.append_refusable
        (N.post fold.now.init.now) (S.gives fold.now.step) (P.means fold.now.parser.now)
        (I.expects_more input.old) (ahead I.location I.remaining input.old)
        (outcome result (ahead I.location I.remaining input.new)) }
    ensures onward { Moves (ahead I.location I.remaining input.old)
        (ahead I.location I.remaining input.new) }
    ensures error { IfErr result (TryFoldErrors (N.post fold.now.init.now)
        (S.gives fold.now.step) S.tells (P.means fold.now.parser.now)
        (GatheredErrors (RepeatErrors (P.means fold.now.parser.now)
        (AppendedErrorsIf (needs_some fold.now.counts.least)
        (ahead I.Checkpoint.location I.remained) E.append_gives
        (TakingErrors E.assert_gives (P.means fold.now.parser.now)
        (P.errors fold.now.parser.now)))))
        (I.expects_more input.old) (ahead I.location I.remaining input.old) input.new) }
    ensures valid { I.valid input.new }
    ensures kept { I.keeps input.old input.new }
{
    let parser = Advancing { inner: fold.parser };
    let mut whole = (fold.init)();
    let mut count = 0;
    'values: while fold.counts.allow_more(count) {
        let start = input.checkpoint();
        match one_more(&parser, fold.counts.least, count, true, alloc, input) {
            Ok(Some(value)) => match fold.step.step(whole, value) {
                Ok(made) => {
                    whole = made;
                    count += 1;
                }
                Err(cause) => {
                    input.reset(&start);
                    return Err(Failure::Backtrack(S::tell(alloc, input, cause)));
                }
            },
            Ok(None) => return Ok(whole),
            Err(failure) => return Err(failure),
        }
    }
    Ok(whole)
}
