//! `verify_fold`, which folds repeated values by a function that may make nothing of one.

ghost use Rattle.std.specs.Prelude.{◌≡◌};
ghost use Rattle.winnow_count.specs.CountRange.{least_count, greatest_count};
ghost use Rattle.winnow_parser.specs.Answer.{ahead};
ghost use Rattle.winnow_combinator.specs.Appended.{AppendedErrorsIf, needs_some};
ghost use Rattle.winnow_combinator.specs.Counts.{Ascending, IsParser-Ascending};
ghost use Rattle.winnow_combinator.specs.Misuse.{TakingErrors, GatheredErrors, AscendingErrors};
ghost use Rattle.winnow_combinator.specs.Repeat.{RepeatErrors};
ghost use Rattle.winnow_combinator.specs.VerifyFold.{VerifiesFold, VerifyFoldErrors};
ghost use Rattle.winnow_combinator.specs.VerifyFold.{IsParser-VerifiesFold};

use crate::counts::Counts;
use crate::folding::{Folding, Verifying, fold_all};
use crate::{Accumulated, Repeat};
use std::alloc::Global;
use winnow_count::Range;
use winnow_error::ParserError;
use winnow_parser::{Failure, ModalResult, Parser};
use winnow_stream::StreamIsPartial;

/// A parser that is called again and again, with a function that folds its values and may make
/// nothing of one; [`verify_fold`](Repeat::verify_fold) makes it.
#[derive(Clone, Copy, Drop)]
pub struct VerifyFold<P, N, F> {
    pub(crate) counts: Range,
    pub(crate) inner: P,
    pub(crate) init: N,
    pub(crate) op: F,
}

impl<P> Repeat<P, Accumulated<()>> {
    /// Returns the parser that calls the inner one until it backtracks or has returned the greatest
    /// count of values, and folds these by `op`, which takes the result so far and the next value,
    /// from the start that `init` returns. With fewer values than the least count, the parser
    /// backtracks, and `append` records that in the inner one's error.
    ///
    /// If `op` returns `None`, the parser backtracks to the place where that value began, with the
    /// error of [`from_input`](winnow_error::ParserError::from_input). No later value is read.
    ///
    /// It cuts if the inner parser returns a value and consumes nothing, since it would never end,
    /// and if the greatest count is below the least.
    ///
    /// ```
    /// fn add(sum: u8, digit: char) -> Option<u8> {
    ///     let sum = sum + (digit as u8 - b'0');
    ///     if sum < 10 { Some(sum) } else { None }
    /// ..
    /// let sum = repeat(*least.., one_of('0'..='9')).verify_fold(|| 0, add);
    /// ```
    pub fn verify_fold<N, F>(self, init: N, op: F) -> VerifyFold<P, N, F>
        ensures { result ≡ record {
          counts = self.counts;
          inner = self.inner;
          init = init;
          op = op;
        } }
    {
        let Repeat {
            counts,
            inner,
            gather: _,
        } = self;
        VerifyFold {
            counts,
            inner,
            init,
            op,
        }
    }
}

impl<
    I: StreamIsPartial,
    E: ParserError<I>,
    P: Parser<I, E>,
    W: Drop,
    N: Fn() -> W,
    F: Fn(W, P::Output) -> Option<W>,
> Parser<I, E> for VerifyFold<P, N, F>
where
    P::Output: Drop,
{
    type Output = W;

    ghost means = { λ p. Ascending (least_count p.counts) (greatest_count p.counts)
        (VerifiesFold (least_count p.counts) (greatest_count p.counts) E.append_refusable
        (N.post p.init) (F.post p.op) (P.means p.inner)) };

    ghost errors = { λ p.
        AscendingErrors (least_count p.counts) (greatest_count p.counts) E.assert_gives
        (VerifyFoldErrors (N.post p.init) (F.post p.op) E.from_input_gives (P.means p.inner)
        (GatheredErrors (RepeatErrors (P.means p.inner)
        (AppendedErrorsIf (needs_some (least_count p.counts))
        (ahead I.Checkpoint.location I.remained) E.append_gives
        (TakingErrors E.assert_gives (P.means p.inner) (P.errors p.inner)))))) };

    ghost ready = { λ p. P.ready p.inner × N.IsAlwaysCallable p.init × F.IsAlwaysCallable p.op };

    ghost lawful = { λ p. IsParser-Ascending (least_count p.counts) (greatest_count p.counts)
        (IsParser-VerifiesFold (least_count p.counts) (greatest_count p.counts) E.append_refusable
        (N.post p.init) (F.post p.op) (P.lawful p.inner)) };

    fn parse_next(&self, alloc: Global, input: &mut I) -> ModalResult<W, E> {
        let counts = Counts::of(&self.counts);
        if !counts.ascend() {
            let message = "the greatest count must not be below the least";
            return Err(Failure::Cut(E::assert(alloc, input, message)));
        }
        // The width of the remaining input fits in a `usize`, so the values can be counted.
        let _ = input.eof_offset();
        let fold = Folding {
            counts,
            parser: &self.inner,
            init: &self.init,
            step: Verifying { op: &self.op },
        };
        fold_all(&fold, alloc, input)
    }
}
