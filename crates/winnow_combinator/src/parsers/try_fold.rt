//! `try_fold`, which folds repeated values by a function that may fail.

ghost use Rattle.std.specs.Prelude.{◌≡◌};
ghost use Rattle.winnow_count.specs.CountRange.{least_count, greatest_count};
ghost use Rattle.winnow_parser.specs.Answer.{ahead};
ghost use Rattle.winnow_combinator.specs.Appended.{AppendedErrorsIf, needs_some};
ghost use Rattle.winnow_combinator.specs.Counts.{Ascending, IsParser-Ascending};
ghost use Rattle.winnow_combinator.specs.Misuse.{TakingErrors, GatheredErrors, AscendingErrors};
ghost use Rattle.winnow_combinator.specs.Repeat.{RepeatErrors};
ghost use Rattle.winnow_combinator.specs.TryFold.{TriesFold, TryFoldErrors, IsParser-TriesFold};

use crate::counts::Counts;
use crate::folding::{Folding, Trying, fold_all};
use crate::{Accumulated, Repeat};
use std::alloc::Global;
use winnow_count::Range;
use winnow_error::{FromExternalError, ParserError};
use winnow_parser::{Failure, ModalResult, Parser};
use winnow_stream::StreamIsPartial;

/// A parser that is called again and again, with a function that folds its values and may fail;
/// [`try_fold`](Repeat::try_fold) makes it.
#[derive(Clone, Copy, Drop)]
pub struct TryFold<P, N, F> {
    pub(crate) counts: Range,
    pub(crate) inner: P,
    pub(crate) init: N,
    pub(crate) op: F,
}

impl<P> Repeat<P, Accumulated<()>> {
    /// Returns the parser that calls the inner one until it backtracks or has returned the greatest
    /// count of values, and folds these by `op`, which takes the result so far and the next value,
    /// from the start that `init` returns. With fewer values than the least count, the parser
    /// backtracks, and `append` records that in the inner one's error.
    ///
    /// If `op` fails, the parser backtracks to the place where that value began, with the error
    /// that [`from_external_error`](winnow_error::FromExternalError::from_external_error) makes of
    /// the error of `op`. No later value is read.
    ///
    /// It cuts if the inner parser returns a value and consumes nothing, since it would never end,
    /// and if the greatest count is below the least.
    ///
    /// ```
    /// let widths = repeat(0.., "abc").try_fold(|| 0u8, |all: u8, item: &str| {
    ///     all.checked_add(item.len() as u8).ok_or("too wide")
    /// });
    /// ```
    pub fn try_fold<N, F>(self, init: N, op: F) -> TryFold<P, N, F>
        ensures { result ≡ record {
          counts = self.counts;
          inner = self.inner;
          init = init;
          op = op;
        } }
    {
        let Repeat {
            counts,
            inner,
            gather: _,
        } = self;
        TryFold {
            counts,
            inner,
            init,
            op,
        }
    }
}

impl<
    I: StreamIsPartial,
    X,
    E: ParserError<I> + FromExternalError<I, X>,
    P: Parser<I, E>,
    W: Drop,
    N: Fn() -> W,
    F: Fn(W, P::Output) -> Result<W, X>,
> Parser<I, E> for TryFold<P, N, F>
where
    P::Output: Drop,
{
    type Output = W;

    ghost means = { λ p. Ascending (least_count p.counts) (greatest_count p.counts)
        (TriesFold (least_count p.counts) (greatest_count p.counts) E.append_refusable
        (N.post p.init) (F.post p.op) (P.means p.inner)) };

    ghost errors = { λ p.
        AscendingErrors (least_count p.counts) (greatest_count p.counts) E.assert_gives
        (TryFoldErrors (N.post p.init) (F.post p.op)
        (λ cause input e. E.from_external_gives input cause e) (P.means p.inner)
        (GatheredErrors (RepeatErrors (P.means p.inner)
        (AppendedErrorsIf (needs_some (least_count p.counts))
        (ahead I.Checkpoint.location I.remained) E.append_gives
        (TakingErrors E.assert_gives (P.means p.inner) (P.errors p.inner)))))) };

    ghost ready = { λ p. P.ready p.inner × N.IsAlwaysCallable p.init × F.IsAlwaysCallable p.op };

    ghost lawful = { λ p. IsParser-Ascending (least_count p.counts) (greatest_count p.counts)
        (IsParser-TriesFold (least_count p.counts) (greatest_count p.counts) E.append_refusable
        (N.post p.init) (F.post p.op) (P.lawful p.inner)) };

    fn parse_next(&self, alloc: Global, input: &mut I) -> ModalResult<W, E> {
        let counts = Counts::of(&self.counts);
        if !counts.ascend() {
            let message = "the greatest count must not be below the least";
            return Err(Failure::Cut(E::assert(alloc, input, message)));
        }
        // The width of the remaining input fits in a `usize`, so the values can be counted.
        let _ = input.eof_offset();
        let fold = Folding {
            counts,
            parser: &self.inner,
            init: &self.init,
            step: Trying { op: &self.op },
        };
        fold_all(&fold, alloc, input)
    }
}
