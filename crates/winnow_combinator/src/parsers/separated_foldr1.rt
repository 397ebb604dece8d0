//! `separated_foldr1`, which folds values and separators from the right.

ghost use Rattle.winnow_parser.specs.Meanings.{Pair};
ghost use Rattle.winnow_combinator.specs.Misuse.{GatheredErrors};
ghost use Rattle.winnow_combinator.specs.SeparatedFoldr1.{FoldsRight, IsSeparatedFoldr1};
ghost use Rattle.winnow_combinator.specs.SeparatedFoldr1.{SeparatedFoldr1Errors};
ghost use Rattle.winnow_combinator.specs.SeparatedFoldr1.{IsParser-IsSeparatedFoldr1};

use crate::{Accumulated, Repeat, repeat};
use std::alloc::Global;
use winnow_error::ParserError;
use winnow_parser::{ModalResult, Parser};
use winnow_stream::StreamIsPartial;

/// A parser of values with separators between them, folded from the right; [`separated_foldr1`]
/// makes it.
#[derive(Clone, Copy, Drop)]
pub struct SeparatedFoldr1<P, S, F> {
    pub(crate) inner: P,
    pub(crate) separator: S,
    pub(crate) op: F,
}

// Folds a value and the pairs after it from the right.
fn fold_right<O: Drop, T: Drop, F: Fn(O, T, O) -> O>(op: &F, first: O, pairs: Vec<(T, O)>) -> O
    requires { F.IsAlwaysCallable op.now }
    ensures { FoldsRight (F.post op.now) first pairs.items result }
{
    let mut pairs = pairs;
    let Some((last, value)) = pairs.pop() else {
        return first;
    };
    let (mut separator, mut right) = (last, value);
    'pairs: while let Some((before, left)) = pairs.pop() {
        right = op(left, separator, right);
        separator = before;
    }
    op(first, separator, right)
}

impl<
    I: StreamIsPartial,
    E: ParserError<I>,
    O: Drop,
    T: Drop,
    P: Parser<I, E, Output = O>,
    S: Parser<I, E, Output = T>,
    F: Fn(O, T, O) -> O,
> Parser<I, E> for SeparatedFoldr1<P, S, F> {
    type Output = O;

    ghost means = { λ p. IsSeparatedFoldr1 (F.post p.op) (S.means p.separator) (P.means p.inner) };

    ghost errors = { λ p. GatheredErrors
        (SeparatedFoldr1Errors E.assert_gives (Pair (S.means p.separator) (P.means p.inner))
        (S.means p.separator) (S.errors p.separator) (P.means p.inner) (P.errors p.inner)) };

    ghost ready = { λ p. P.ready p.inner × S.ready p.separator × F.IsAlwaysCallable p.op };

    ghost lawful = { λ p.
        IsParser-IsSeparatedFoldr1 (S.lawful p.separator) (P.lawful p.inner) (F.post p.op) };

    fn parse_next(&self, alloc: Global, input: &mut I) -> ModalResult<O, E> {
        let first = self.inner.parse_next(alloc, input)?;
        let pair = (&self.separator, &self.inner);
        let pairs: Repeat<_, Accumulated<Vec<(T, O)>>> = repeat(0.., pair);
        match pairs.parse_next(alloc, input) {
            Ok(all) => Ok(fold_right(&self.op, first, all)),
            Err(failure) => Err(failure),
        }
    }
}
