//! The loop of repeated parsers: `go_on`, its single call `one_more`, and the check `Advancing`.

ghost use Rattle.std.specs.Prelude.{◌+◌, ◌<◌, ◌^◌, List, length, IfErr};
ghost use Rattle.std.specs.List.{FoldsTo};
ghost use Rattle.winnow_stream.specs.Source.{width};
ghost use Rattle.winnow_parser.specs.Outcome.{Moves};
ghost use Rattle.winnow_parser.specs.Answer.{ahead, outcome};
ghost use Rattle.winnow_combinator.specs.Appended.{AppendingIf, AppendedErrorsIf, needs_some};
ghost use Rattle.winnow_combinator.specs.Counts.{Ascends};
ghost use Rattle.winnow_combinator.specs.Misuse.{TakingErrors, GatheredErrors};
ghost use Rattle.winnow_combinator.specs.Repeat.{Taking, IsParser-Taking, OneMore, Repeats};
ghost use Rattle.winnow_combinator.specs.Repeat.{RepeatErrors};
ghost use Rattle.winnow_combinator.specs.Gathering.{Gathered};

use crate::Gather;
use crate::counts::Counts;
use std::alloc::Global;
use winnow_error::ParserError;
use winnow_parser::{Failure, ModalResult, Parser};
use winnow_stream::StreamIsPartial;

// A parser whose values each take some tokens. Where the inner parser takes nothing for a value,
// this one cuts, since a repetition would never end.
#[derive_where(Clone, Copy)]
pub(crate) struct Advancing<'a, P> {
    pub(crate) inner: &'a P,
}

impl<I: StreamIsPartial, E: ParserError<I>, P: Parser<I, E>> Parser<I, E> for Advancing<'_, P>
where
    P::Output: Drop,
{
    type Output = P::Output;

    ghost means = { λ p. Taking (P.means p.inner.now) };

    ghost errors = { λ p.
        TakingErrors E.assert_gives (P.means p.inner.now) (P.errors p.inner.now) };

    ghost ready = { λ p. P.ready p.inner.now };

    ghost lawful = { λ p. IsParser-Taking (P.lawful p.inner.now) };

    #[inline(always)]
    fn parse_next(&self, alloc: Global, input: &mut I) -> ModalResult<P::Output, E> {
        let before = input.eof_offset();
        let value = self.inner.parse_next(alloc, input)?;
        if input.eof_offset() < before {
            return Ok(value);
        }
        let message = "a repeated parser must take something";
        Err(Failure::Cut(E::assert(alloc, input, message)))
    }
}

// Asks a parser for one more value, after `count` values. Returns `None`, and resets the stream,
// where the parser backtracks and these values are enough. Where they are not, the parser
// backtracks too, and `append` records that in its error if `appends` says so.
#[inline(always)]
pub(crate) fn one_more<I: StreamIsPartial, E: ParserError<I>, P: Parser<I, E>>(
    parser: &P,
    least: usize,
    count: usize,
    appends: bool,
    alloc: Global,
    input: &mut I,
) -> ModalResult<Option<P::Output>, E>
    requires ready { P.ready parser.now }
    requires valid { I.valid input.old }
    ensures means { AppendingIf appends E.append_refusable
        (OneMore least count (P.means parser.now))
        (I.expects_more input.old)
        (ahead I.location I.remaining input.old)
        (outcome result (ahead I.location I.remaining input.new)) }
    ensures onward { Moves (ahead I.location I.remaining input.old)
        (ahead I.location I.remaining input.new) }
    ensures error { IfErr result (AppendedErrorsIf appends
        (ahead I.Checkpoint.location I.remained) E.append_gives (P.errors parser.now)
        (I.expects_more input.old) (ahead I.location I.remaining input.old) input.new) }
    ensures valid { I.valid input.new }
    ensures kept { I.keeps input.old input.new }
{
    let start = input.checkpoint();
    match parser.parse_next(alloc, input) {
        Ok(value) => Ok(Some(value)),
        Err(Failure::Backtrack(error)) => {
            if least <= count {
                input.reset(&start);
                return Ok(None);
            }
            if !appends {
                return Err(Failure::Backtrack(error));
            }
            match error.append(alloc, input, &start) {
                Ok(appended) => Err(Failure::Backtrack(appended)),
                Err(refused) => Err(Failure::Refused(refused)),
            }
        }
        Err(Failure::Cut(error)) => Err(Failure::Cut(error)),
        Err(Failure::Incomplete(needed)) => Err(Failure::Incomplete(needed)),
        Err(Failure::Refused(refused)) => Err(Failure::Refused(refused)),
    }
}

// A parser that is asked again and again, with what gathers its values.
#[derive_where(Clone, Copy)]
pub(crate) struct Again<'a, P, G> {
    pub(crate) parser: &'a P,
    pub(crate) gather: &'a G,
    pub(crate) counts: Counts,
}

// Asks the parser until it backtracks or has given the greatest count of values, and adds them to
// those that are gathered already.
//
// Inlined: a call that takes the stream by reference keeps it in memory in its caller's loops too.
#[inline(always)]
pub(crate) fn go_on<I: StreamIsPartial, E: ParserError<I>, P: Parser<I, E>, G: Gather<P::Output>>(
    again: &Again<P, G>,
    alloc: Global,
    mut whole: G::Whole,
    input: &mut I,
) -> ModalResult<G::Whole, E>
where
    P::Output: Drop,
    requires parser { P.ready again.now.parser.now }
    requires gather { G.ready again.now.gather.now }
    requires ascend { Ascends again.now.counts.least again.now.counts.greatest }
    requires valid { I.valid input.old }
    requires room { (before : List P.Output) × (G.makes again.now.gather.now before whole
        × (length before + width (I.remaining input.old) < 2 ^ 64)) }
    ensures means { Gathered G.refusable (FoldsTo (G.takes again.now.gather.now) whole)
        (AppendingIf (needs_some again.now.counts.least) E.append_refusable
        (Repeats again.now.counts.least again.now.counts.greatest (P.means again.now.parser.now)))
        (I.expects_more input.old)
        (ahead I.location I.remaining input.old)
        (outcome result (ahead I.location I.remaining input.new)) }
    ensures onward { Moves (ahead I.location I.remaining input.old)
        (ahead I.location I.remaining input.new) }
    ensures error { IfErr result (GatheredErrors (RepeatErrors (P.means again.now.parser.now)
        (AppendedErrorsIf (needs_some again.now.counts.least)
        (ahead I.Checkpoint.location I.remained) E.append_gives
        (TakingErrors E.assert_gives (P.means again.now.parser.now)
        (P.errors again.now.parser.now))))
        (I.expects_more input.old) (ahead I.location I.remaining input.old) input.new) }
    ensures valid { I.valid input.new }
    ensures kept { I.keeps input.old input.new }
{
    let parser = Advancing {
        inner: again.parser,
    };
    let mut count = 0;
    while again.counts.allow_more(count) {
        match one_more(&parser, again.counts.least, count, true, alloc, input) {
            Ok(Some(value)) => match again.gather.take(alloc, &mut whole, value) {
                Ok(()) => count += 1,
                Err(refused) => return Err(Failure::Refused(refused)),
            },
            Ok(None) => return Ok(whole),
            Err(failure) => return Err(failure),
        }
    }
    Ok(whole)
}
