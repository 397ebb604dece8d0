//! `separated_foldl1`, which folds values and separators from the left.

ghost use Rattle.std.specs.Prelude.{⊤};
ghost use Rattle.winnow_parser.specs.Meanings.{Pair};
ghost use Rattle.winnow_combinator.specs.Misuse.{GatheredErrors};
ghost use Rattle.winnow_combinator.specs.Separated.{IsSeparatedFoldl1, SeparatedFoldl1Errors};
ghost use Rattle.winnow_combinator.specs.Separated.{IsParser-IsSeparatedFoldl1};

use crate::Gather;
use crate::again::{Again, go_on};
use crate::counts::Counts;
use core::mem::replace_with;
use std::alloc::{AllocError, Global};
use winnow_error::ParserError;
use winnow_parser::{ModalResult, Parser};
use winnow_stream::StreamIsPartial;

/// A parser of values with separators between them, folded from the left; [`separated_foldl1`]
/// makes it.
#[derive(Clone, Copy, Drop)]
pub struct SeparatedFoldl1<P, S, F> {
    pub(crate) inner: P,
    pub(crate) separator: S,
    pub(crate) op: F,
}

// The function, which takes a separator and the value after it.
#[derive_where(Clone, Copy)]
struct Operation<'a, F> {
    op: &'a F,
}

impl<O: Drop, S, F: Fn(O, S, O) -> O> Gather<(S, O)> for Operation<'_, F> {
    type Whole = O;

    ghost ready = { λ g. F.IsAlwaysCallable g.op.now };

    ghost makes = { λ _ _ _. ⊤ };

    ghost takes = { λ g left pair new. F.post g.op.now left pair.0 pair.1 new };

    ghost can_take = { λ _ _. ⊤ };

    ghost refusable = { ⊥ };

    fn take(&self, _alloc: Global, whole: &mut O, value: (S, O)) -> Result<(), AllocError> {
        replace_with(whole, value, |left, (separator, right)| {
            ((self.op)(left, separator, right), ())
        });
        Ok(())
    }

    ghost makes_taken = { λ _ _ _ _ _ _ _. tt };

    ghost fits = { λ _ _ _ _ _. tt };
}

impl<
    I: StreamIsPartial,
    E: ParserError<I>,
    O: Drop,
    T: Drop,
    P: Parser<I, E, Output = O>,
    S: Parser<I, E, Output = T>,
    F: Fn(O, T, O) -> O,
> Parser<I, E> for SeparatedFoldl1<P, S, F> {
    type Output = O;

    ghost means = { λ p. IsSeparatedFoldl1 (λ left pair new. F.post p.op left pair.0 pair.1 new)
        (S.means p.separator) (P.means p.inner) };

    ghost errors = { λ p. GatheredErrors
        (SeparatedFoldl1Errors E.assert_gives (Pair (S.means p.separator) (P.means p.inner))
        (S.means p.separator) (S.errors p.separator) (P.means p.inner) (P.errors p.inner)) };

    ghost ready = { λ p. P.ready p.inner × S.ready p.separator × F.IsAlwaysCallable p.op };

    ghost lawful = { λ p. IsParser-IsSeparatedFoldl1 (S.lawful p.separator) (P.lawful p.inner)
        (λ left pair new. F.post p.op left pair.0 pair.1 new) };

    fn parse_next(&self, alloc: Global, input: &mut I) -> ModalResult<O, E> {
        let first = self.inner.parse_next(alloc, input)?;
        // The width of what remains fits in a `usize`, so the values can be counted.
        let _ = input.eof_offset();
        let pairs = (&self.separator, &self.inner);
        let gather = Operation { op: &self.op };
        let again = Again {
            parser: &pairs,
            gather: &gather,
            counts: Counts {
                least: 0,
                greatest: None,
            },
        };
        go_on(&again, alloc, first, input)
    }
}
