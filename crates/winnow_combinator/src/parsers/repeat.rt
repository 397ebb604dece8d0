//! `repeat`, which calls a parser again and again, and `fold` of its values.

ghost use Rattle.std.specs.Prelude.{◌≡◌};
ghost use Rattle.winnow_count.specs.CountRange.{least_count, greatest_count};
ghost use Rattle.winnow_parser.specs.Answer.{ahead};
ghost use Rattle.winnow_combinator.specs.Appended.{AppendingIf, AppendedErrorsIf, needs_some};
ghost use Rattle.winnow_combinator.specs.Appended.{IsParser-AppendingIf};
ghost use Rattle.winnow_combinator.specs.Counts.{Ascending, IsParser-Ascending};
ghost use Rattle.winnow_combinator.specs.Repeat.{Repeats, IsParser-Repeats, RepeatErrors};
ghost use Rattle.winnow_combinator.specs.Misuse.{TakingErrors, GatheredErrors, AscendingErrors};
ghost use Rattle.winnow_combinator.specs.Gathering.{Gathered, IsParser-Gathered};

use crate::again::{Again, go_on};
use crate::counts::Counts;
use crate::{Accumulated, Begin, Folded};
use std::alloc::Global;
use winnow_count::Range;
use winnow_error::ParserError;
use winnow_parser::{Failure, ModalResult, Parser};
use winnow_stream::StreamIsPartial;

/// A parser that is asked again and again, with what gathers its values; [`repeat`] makes it.
#[derive(Clone, Copy, Drop)]
pub struct Repeat<P, G> {
    pub(crate) counts: Range,
    pub(crate) inner: P,
    pub(crate) gather: G,
}

impl<P> Repeat<P, Accumulated<()>> {
    /// Returns the parser that folds the values by a function, from a start that another function
    /// gives.
    pub fn fold<N, F>(self, init: N, f: F) -> Repeat<P, Folded<N, F>>
        ensures { result ≡ record {
          counts = self.counts;
          inner = self.inner;
          gather = record { init = init; f = f };
        } }
    {
        let Repeat {
            counts,
            inner,
            gather: _,
        } = self;
        Repeat {
            counts,
            inner,
            gather: Folded { init, f },
        }
    }
}

impl<I: StreamIsPartial, E: ParserError<I>, P: Parser<I, E>, G: Begin<P::Output>> Parser<I, E>
    for Repeat<P, G>
where
    P::Output: Drop,
{
    type Output = G::Whole;

    ghost means = { λ p. Ascending (least_count p.counts) (greatest_count p.counts)
        (Gathered G.refusable (G.makes p.gather)
        (AppendingIf (needs_some (least_count p.counts)) E.append_refusable
        (Repeats (least_count p.counts) (greatest_count p.counts) (P.means p.inner)))) };

    ghost errors = { λ p.
        AscendingErrors (least_count p.counts) (greatest_count p.counts) E.assert_gives
        (GatheredErrors (RepeatErrors (P.means p.inner)
        (AppendedErrorsIf (needs_some (least_count p.counts))
        (ahead I.Checkpoint.location I.remained) E.append_gives
        (TakingErrors E.assert_gives (P.means p.inner) (P.errors p.inner))))) };

    ghost ready = { λ p. P.ready p.inner × G.ready p.gather };

    ghost lawful = { λ p. IsParser-Ascending (least_count p.counts) (greatest_count p.counts)
        (IsParser-Gathered G.refusable (G.makes p.gather)
        (IsParser-AppendingIf (needs_some (least_count p.counts)) E.append_refusable
        (IsParser-Repeats (least_count p.counts) (greatest_count p.counts)
        (P.lawful p.inner)))) };

    fn parse_next(&self, alloc: Global, input: &mut I) -> ModalResult<G::Whole, E> {
        let counts = Counts::of(&self.counts);
        if !counts.ascend() {
            let message = "the greatest count must not be below the least";
            return Err(Failure::Cut(E::assert(alloc, input, message)));
        }
        // The width of what remains fits in a `usize`, so the values can be counted.
        let _ = input.eof_offset();
        match self.gather.begin(alloc) {
            Ok(whole) => {
                let again = Again {
                    parser: &self.inner,
                    gather: &self.gather,
                    counts,
                };
                go_on(&again, alloc, whole, input)
            }
            Err(refused) => Err(Failure::Refused(refused)),
        }
    }
}
