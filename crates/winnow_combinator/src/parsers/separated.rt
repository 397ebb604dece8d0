//! `separated`, the parser of values with separators between them.

ghost use Rattle.std.specs.Prelude.{◌+◌, ◌-◌, ◌<◌, ◌^◌, ◌∷◌, IfErr};
ghost use Rattle.winnow_stream.specs.Source.{width};
ghost use Rattle.winnow_parser.specs.Outcome.{Moves};
ghost use Rattle.winnow_parser.specs.Answer.{ahead, outcome};
ghost use Rattle.winnow_parser.specs.Meanings.{IsPreceded};
ghost use Rattle.winnow_parser.specs.Errors.{PairErrors};
ghost use Rattle.winnow_count.specs.CountRange.{least_count, greatest_count};
ghost use Rattle.winnow_combinator.specs.Appended.{AppendingIf, AppendedErrorsIf, needs_some};
ghost use Rattle.winnow_combinator.specs.Appended.{appends_to_first, IsParser-AppendingIf};
ghost use Rattle.winnow_combinator.specs.Counts.{Ascends, fewer, Ascending, IsParser-Ascending};
ghost use Rattle.winnow_combinator.specs.Repeat.{Repeats, RepeatErrors};
ghost use Rattle.winnow_combinator.specs.Misuse.{TakingErrors, GatheredErrors, AscendingErrors};
ghost use Rattle.winnow_combinator.specs.Gathering.{Gathered, IsParser-Gathered};
ghost use Rattle.winnow_combinator.specs.Separated.{Chained, IfNeeded, SeparatedErrors};
ghost use Rattle.winnow_combinator.specs.Separated.{IsSeparated};
ghost use Rattle.winnow_combinator.specs.Separated.{IsParser-IsSeparated, Countable};
ghost use Rattle.winnow_combinator.specs.Separated.{IsParser-Countable};

use crate::again::{Again, go_on, one_more};
use crate::counts::Counts;
use crate::gather::begin_with;
use crate::{Begin, Preceded};
use std::alloc::{AllocError, Global};
use winnow_count::Range;
use winnow_error::ParserError;
use winnow_parser::{Failure, ModalResult, Parser};
use winnow_stream::StreamIsPartial;

/// A parser of values with separators between them, with what gathers the values; [`separated`]
/// makes it.
#[derive(Clone, Copy, Drop)]
pub struct Separated<P, S, G> {
    pub(crate) counts: Range,
    pub(crate) inner: P,
    pub(crate) separator: S,
    pub(crate) gather: G,
}

// Reads what follows the first value.
#[inline(always)]
fn rest<
    I: StreamIsPartial,
    E: ParserError<I>,
    P: Parser<I, E>,
    S: Parser<I, E>,
    G: Begin<P::Output>,
>(
    list: &Separated<P, S, G>,
    counts: &Counts,
    first: P::Output,
    alloc: Global,
    input: &mut I,
) -> ModalResult<G::Whole, E>
where
    P::Output: Drop,
    S::Output: Drop,
    requires inner { P.ready list.now.inner }
    requires separator { S.ready list.now.separator }
    requires gather { G.ready list.now.gather }
    requires ascend { Ascends counts.now.least counts.now.greatest }
    requires valid { I.valid input.old }
    requires room { width (I.remaining input.old) + 1 < 2 ^ 64 }
    ensures means { Gathered G.refusable (λ xs whole. G.makes list.now.gather (first ∷ xs) whole)
        (AppendingIf (needs_some (counts.now.least - 1)) E.append_refusable
        (Repeats (counts.now.least - 1) (fewer counts.now.greatest)
        (IsPreceded (S.means list.now.separator) (P.means list.now.inner))))
        (I.expects_more input.old)
        (ahead I.location I.remaining input.old)
        (outcome result (ahead I.location I.remaining input.new)) }
    ensures onward { Moves (ahead I.location I.remaining input.old)
        (ahead I.location I.remaining input.new) }
    ensures error { IfErr result (GatheredErrors
        (RepeatErrors (IsPreceded (S.means list.now.separator) (P.means list.now.inner))
        (AppendedErrorsIf (needs_some (counts.now.least - 1))
        (ahead I.Checkpoint.location I.remained) E.append_gives
        (TakingErrors E.assert_gives
        (IsPreceded (S.means list.now.separator) (P.means list.now.inner))
        (PairErrors (S.means list.now.separator) (S.errors list.now.separator)
        (P.errors list.now.inner)))))
        (I.expects_more input.old) (ahead I.location I.remaining input.old) input.new) }
    ensures valid { I.valid input.new }
    ensures kept { I.keeps input.old input.new }
{
    match begin_with(&list.gather, alloc, first) {
        Ok(whole) => {
            let pairs = Preceded {
                first: &list.separator,
                second: &list.inner,
            };
            let again = Again {
                parser: &pairs,
                gather: &list.gather,
                counts: counts.after_one(),
            };
            go_on(&again, alloc, whole, input)
        }
        Err(refused) => Err(Failure::Refused(refused)),
    }
}

// Reads the values, where at least one is allowed.
#[inline(always)]
fn values<
    I: StreamIsPartial,
    E: ParserError<I>,
    P: Parser<I, E>,
    S: Parser<I, E>,
    G: Begin<P::Output>,
>(
    list: &Separated<P, S, G>,
    counts: &Counts,
    alloc: Global,
    input: &mut I,
) -> ModalResult<G::Whole, E>
where
    P::Output: Drop,
    S::Output: Drop,
    requires inner { P.ready list.now.inner }
    requires separator { S.ready list.now.separator }
    requires gather { G.ready list.now.gather }
    requires ascend { Ascends counts.now.least counts.now.greatest }
    requires valid { I.valid input.old }
    requires room { width (I.remaining input.old) + 1 < 2 ^ 64 }
    ensures means { Gathered G.refusable (G.makes list.now.gather)
        (AppendingIf (appends_to_first counts.now.least counts.now.greatest) E.append_refusable
        (IfNeeded counts.now.least (Chained counts.now.least counts.now.greatest
        (S.means list.now.separator) (P.means list.now.inner))))
        (I.expects_more input.old)
        (ahead I.location I.remaining input.old)
        (outcome result (ahead I.location I.remaining input.new)) }
    ensures onward { Moves (ahead I.location I.remaining input.old)
        (ahead I.location I.remaining input.new) }
    ensures error { IfErr result (GatheredErrors (SeparatedErrors counts.now.least
        counts.now.greatest
        (ahead I.Checkpoint.location I.remained) E.append_gives E.assert_gives
        (IsPreceded (S.means list.now.separator) (P.means list.now.inner))
        (S.means list.now.separator) (S.errors list.now.separator)
        (P.means list.now.inner) (P.errors list.now.inner))
        (I.expects_more input.old) (ahead I.location I.remaining input.old) input.new) }
    ensures valid { I.valid input.new }
    ensures kept { I.keeps input.old input.new }
{
    let appends = counts.append_to_first();
    match one_more(&list.inner, counts.least, 0, appends, alloc, input) {
        Ok(Some(first)) => rest(list, counts, first, alloc, input),
        Ok(None) => match list.gather.begin(alloc) {
            Ok(none) => Ok(none),
            Err(refused) => Err(Failure::Refused(refused)),
        },
        Err(failure) => Err(failure),
    }
}

impl<
    I: StreamIsPartial,
    E: ParserError<I>,
    P: Parser<I, E>,
    S: Parser<I, E>,
    G: Begin<P::Output>,
> Parser<I, E> for Separated<P, S, G>
where
    P::Output: Drop,
    S::Output: Drop,
{
    type Output = G::Whole;

    ghost means = { λ p. Ascending (least_count p.counts) (greatest_count p.counts)
        (Countable (Gathered G.refusable (G.makes p.gather)
        (AppendingIf (appends_to_first (least_count p.counts) (greatest_count p.counts))
        E.append_refusable
        (IsSeparated (least_count p.counts) (greatest_count p.counts)
        (S.means p.separator) (P.means p.inner))))) };

    ghost errors = { λ p.
        AscendingErrors (least_count p.counts) (greatest_count p.counts) E.assert_gives
        (GatheredErrors (SeparatedErrors (least_count p.counts) (greatest_count p.counts)
        (ahead I.Checkpoint.location I.remained) E.append_gives E.assert_gives
        (IsPreceded (S.means p.separator) (P.means p.inner))
        (S.means p.separator) (S.errors p.separator) (P.means p.inner) (P.errors p.inner))) };

    ghost ready = { λ p. P.ready p.inner × S.ready p.separator × G.ready p.gather };

    ghost lawful = { λ p. IsParser-Ascending (least_count p.counts) (greatest_count p.counts)
        (IsParser-Countable (IsParser-Gathered G.refusable (G.makes p.gather)
        (IsParser-AppendingIf
        (appends_to_first (least_count p.counts) (greatest_count p.counts)) E.append_refusable
        (IsParser-IsSeparated (least_count p.counts) (greatest_count p.counts)
        (S.lawful p.separator) (P.lawful p.inner))))) };

    fn parse_next(&self, alloc: Global, input: &mut I) -> ModalResult<G::Whole, E> {
        let counts = Counts::of(&self.counts);
        if !counts.ascend() {
            let message = "the greatest count must not be below the least";
            return Err(Failure::Cut(E::assert(alloc, input, message)));
        }
        if input.eof_offset() == usize::MAX {
            return Err(Failure::Refused(AllocError));
        }
        if counts.allow_more(0) {
            return values(self, &counts, alloc, input);
        }
        match self.gather.begin(alloc) {
            Ok(none) => Ok(none),
            Err(refused) => Err(Failure::Refused(refused)),
        }
    }
}
