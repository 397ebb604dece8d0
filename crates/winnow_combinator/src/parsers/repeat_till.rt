//! `repeat_till`, which repeats a parser until another one succeeds.

ghost use Rattle.std.specs.Prelude.{◌+◌, ◌<◌, ◌^◌, List, length, IfErr};
ghost use Rattle.std.specs.List.{FoldsTo};
ghost use Rattle.winnow_stream.specs.Source.{width};
ghost use Rattle.winnow_parser.specs.Outcome.{Moves};
ghost use Rattle.winnow_parser.specs.Answer.{ahead, outcome};
ghost use Rattle.winnow_count.specs.CountRange.{least_count, greatest_count};
ghost use Rattle.winnow_combinator.specs.Appended.{Appending, AppendedErrors, IsParser-Appending};
ghost use Rattle.winnow_combinator.specs.Counts.{Ascending, IsParser-Ascending};
ghost use Rattle.winnow_combinator.specs.Misuse.{TakingErrors, GatheredErrors, AscendingErrors};
ghost use Rattle.winnow_combinator.specs.Gathering.{Gathered, IsParser-Gathered};
ghost use Rattle.winnow_combinator.specs.RepeatTill.{EndAfter, RepeatsTill, IsParser-RepeatsTill};
ghost use Rattle.winnow_combinator.specs.RepeatTill.{MakesOfFirst, RepeatTillErrors};

use crate::again::{Advancing, Again};
use crate::appended::Appended;
use crate::counts::Counts;
use crate::{Begin, Gather};
use std::alloc::Global;
use winnow_count::Range;
use winnow_error::ParserError;
use winnow_parser::{Failure, ModalResult, Parser};
use winnow_stream::StreamIsPartial;

/// A parser that is asked again and again, up to where another gives a value, with what gathers its
/// values; [`repeat_till`] makes it.
#[derive(Clone, Copy, Drop)]
pub struct RepeatTill<P, Q, G> {
    pub(crate) counts: Range,
    pub(crate) inner: P,
    pub(crate) terminator: Q,
    pub(crate) gather: G,
}

// Asks the terminator, after `count` values. Returns `None` where these are too few to ask it.
// Returns `None` and resets the stream where it backtracks and one more value is allowed.
fn end_after<I: StreamIsPartial, E: ParserError<I>, Q: Parser<I, E>>(
    terminator: &Q,
    counts: &Counts,
    count: usize,
    alloc: Global,
    input: &mut I,
) -> ModalResult<Option<Q::Output>, E>
    requires ready { Q.ready terminator.now }
    requires valid { I.valid input.old }
    ensures means { EndAfter counts.now.least counts.now.greatest count (Q.means terminator.now)
        (I.expects_more input.old)
        (ahead I.location I.remaining input.old)
        (outcome result (ahead I.location I.remaining input.new)) }
    ensures onward { Moves (ahead I.location I.remaining input.old)
        (ahead I.location I.remaining input.new) }
    ensures error { IfErr result (Q.errors terminator.now (I.expects_more input.old)
        (ahead I.location I.remaining input.old) input.new) }
    ensures valid { I.valid input.new }
    ensures kept { I.keeps input.old input.new }
{
    if count < counts.least {
        return Ok(None);
    }
    let start = input.checkpoint();
    match terminator.parse_next(alloc, input) {
        Ok(value) => Ok(Some(value)),
        Err(Failure::Backtrack(error)) => {
            if !counts.allow_more(count) {
                return Err(Failure::Backtrack(error));
            }
            input.reset(&start);
            Ok(None)
        }
        Err(Failure::Cut(error)) => Err(Failure::Cut(error)),
        Err(Failure::Incomplete(needed)) => Err(Failure::Incomplete(needed)),
        Err(Failure::Refused(refused)) => Err(Failure::Refused(refused)),
    }
}

// Asks the terminator and the parser in turn until the terminator gives a value, and adds the
// parser's values to those that are gathered already.
#[inline(always)]
fn go_till<
    I: StreamIsPartial,
    E: ParserError<I>,
    P: Parser<I, E>,
    Q: Parser<I, E>,
    G: Gather<P::Output>,
>(
    again: &Again<P, G>,
    terminator: &Q,
    alloc: Global,
    mut whole: G::Whole,
    input: &mut I,
) -> ModalResult<(G::Whole, Q::Output), E>
where
    P::Output: Drop,
    requires parser { P.ready again.now.parser.now }
    requires terminator { Q.ready terminator.now }
    requires gather { G.ready again.now.gather.now }
    requires valid { I.valid input.old }
    requires room { (before : List P.Output) × (G.makes again.now.gather.now before whole
        × (length before + width (I.remaining input.old) < 2 ^ 64)) }
    ensures means { Gathered G.refusable
        (MakesOfFirst (FoldsTo (G.takes again.now.gather.now) whole))
        (RepeatsTill again.now.counts.least again.now.counts.greatest
        (P.means again.now.parser.now) (Q.means terminator.now))
        (I.expects_more input.old)
        (ahead I.location I.remaining input.old)
        (outcome result (ahead I.location I.remaining input.new)) }
    ensures onward { Moves (ahead I.location I.remaining input.old)
        (ahead I.location I.remaining input.new) }
    ensures error { IfErr result (GatheredErrors
        (RepeatTillErrors again.now.counts.least again.now.counts.greatest
        (P.means again.now.parser.now)
        (TakingErrors E.assert_gives (P.means again.now.parser.now)
        (P.errors again.now.parser.now))
        (Q.means terminator.now) (Q.errors terminator.now))
        (I.expects_more input.old) (ahead I.location I.remaining input.old) input.new) }
    ensures valid { I.valid input.new }
    ensures kept { I.keeps input.old input.new }
{
    let parser = Advancing {
        inner: again.parser,
    };
    let mut count = 0;
    loop {
        match end_after(terminator, &again.counts, count, alloc, input) {
            Ok(Some(end)) => return Ok((whole, end)),
            Ok(None) => {}
            Err(failure) => return Err(failure),
        }
        match parser.parse_next(alloc, input) {
            Ok(value) => match again.gather.take(alloc, &mut whole, value) {
                Ok(()) => count += 1,
                Err(refused) => return Err(Failure::Refused(refused)),
            },
            Err(failure) => return Err(failure),
        }
    }
}

impl<
    I: StreamIsPartial,
    E: ParserError<I>,
    P: Parser<I, E>,
    Q: Parser<I, E>,
    G: Begin<P::Output>,
> Parser<I, E> for RepeatTill<P, Q, G>
where
    P::Output: Drop,
{
    type Output = (G::Whole, Q::Output);

    ghost means = { λ p. Ascending (least_count p.counts) (greatest_count p.counts)
        (Gathered G.refusable (MakesOfFirst (G.makes p.gather))
        (RepeatsTill (least_count p.counts) (greatest_count p.counts)
        (Appending E.append_refusable (P.means p.inner)) (Q.means p.terminator))) };

    ghost errors = { λ p.
        AscendingErrors (least_count p.counts) (greatest_count p.counts) E.assert_gives
        (GatheredErrors (RepeatTillErrors (least_count p.counts) (greatest_count p.counts)
        (Appending E.append_refusable (P.means p.inner))
        (TakingErrors E.assert_gives (Appending E.append_refusable (P.means p.inner))
        (AppendedErrors (ahead I.Checkpoint.location I.remained) E.append_gives
        (P.errors p.inner)))
        (Q.means p.terminator) (Q.errors p.terminator))) };

    ghost ready = { λ p. P.ready p.inner × Q.ready p.terminator × G.ready p.gather };

    ghost lawful = { λ p. IsParser-Ascending (least_count p.counts) (greatest_count p.counts)
        (IsParser-Gathered G.refusable (MakesOfFirst (G.makes p.gather))
        (IsParser-RepeatsTill (least_count p.counts) (greatest_count p.counts)
        (IsParser-Appending E.append_refusable (P.lawful p.inner)) (Q.lawful p.terminator))) };

    fn parse_next(&self, alloc: Global, input: &mut I) -> ModalResult<(G::Whole, Q::Output), E> {
        let counts = Counts::of(&self.counts);
        if !counts.ascend() {
            let message = "the greatest count must not be below the least";
            return Err(Failure::Cut(E::assert(alloc, input, message)));
        }
        // The width of what remains fits in a `usize`, so the values can be counted.
        let _ = input.eof_offset();
        match self.gather.begin(alloc) {
            Ok(whole) => {
                let inner = Appended { inner: &self.inner };
                let again = Again {
                    parser: &inner,
                    gather: &self.gather,
                    counts,
                };
                go_till(&again, &self.terminator, alloc, whole, input)
            }
            Err(refused) => Err(Failure::Refused(refused)),
        }
    }
}
