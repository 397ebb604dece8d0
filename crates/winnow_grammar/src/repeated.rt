//! The spellings of `repeat`, `separated`, `separated_foldl1` and folds.

ghost use Rattle.winnow_count.specs.CountRange.{least_count, greatest_count};
ghost use Rattle.winnow_combinator.specs.Appended.{needs_some, appends_to_first};
ghost use Rattle.winnow_grammar.specs.Spellings.{Counted, Chain, ListOf};
ghost use Rattle.winnow_grammar.specs.Spelled.{spelled-Counted, spelled-Chain};
ghost use Rattle.winnow_grammar.specs.SpelledLists.{spelled-ListOf};

use crate::Spells;
use winnow_combinator::{Begin, Repeat, Separated, SeparatedFoldl1};
use winnow_error::ParserError;
use winnow_stream::StreamIsPartial;

impl<I: StreamIsPartial, E: ParserError<I>, P: Spells<I, E>, G: Begin<P::Output>> Spells<I, E>
    for Repeat<P, G>
where
    P::Output: Drop,
{
    ghost spells = { λ p. Counted (least_count p.counts) (greatest_count p.counts)
        (G.makes p.gather) (P.spells p.inner) };

    ghost spelled = { λ p. spelled-Counted (P.spells p.inner) (P.means p.inner) (P.spelled p.inner)
        (needs_some (least_count p.counts)) E.append_refusable (least_count p.counts)
        (greatest_count p.counts) G.refusable (G.makes p.gather) };
}

impl<
    I: StreamIsPartial,
    E: ParserError<I>,
    O: Drop,
    T: Drop,
    P: Spells<I, E, Output = O>,
    S: Spells<I, E, Output = T>,
    F: Fn(O, T, O) -> O,
> Spells<I, E> for SeparatedFoldl1<P, S, F> {
    ghost spells = { λ p. Chain (λ left pair new. F.post p.op left pair.0 pair.1 new)
        (S.spells p.separator) (P.spells p.inner) };

    ghost spelled = { λ p. spelled-Chain
        (λ left pair new. F.post p.op left pair.0 pair.1 new) (S.spells p.separator)
        (P.spells p.inner) (S.means p.separator) (P.means p.inner) (S.spelled p.separator)
        (P.spelled p.inner) };

    // The check states a bound on a function of a block that has a method.
    fn this(&self) -> &Self {
        self
    }
}

impl<
    I: StreamIsPartial,
    E: ParserError<I>,
    P: Spells<I, E>,
    S: Spells<I, E>,
    G: Begin<P::Output>,
> Spells<I, E> for Separated<P, S, G>
where
    P::Output: Drop,
    S::Output: Drop,
{
    ghost spells = { λ p. ListOf (least_count p.counts) (greatest_count p.counts)
        (G.makes p.gather) (S.spells p.separator) (P.spells p.inner) };

    ghost spelled = { λ p. spelled-ListOf (S.spells p.separator) (P.spells p.inner)
        (S.means p.separator) (P.means p.inner) (S.spelled p.separator) (P.spelled p.inner)
        (appends_to_first (least_count p.counts) (greatest_count p.counts)) E.append_refusable
        (least_count p.counts) (greatest_count p.counts) G.refusable (G.makes p.gather) };
}
