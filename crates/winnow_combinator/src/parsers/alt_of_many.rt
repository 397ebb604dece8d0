//! `Alt` of a slice and of an array: as many parsers of one type as it has.

ghost use Rattle.std.specs.Prelude.{All};
ghost use Rattle.winnow_parser.specs.Answer.{ahead};
ghost use Rattle.winnow_combinator.specs.AltOf.{IsAltOf, AltErrorsOf, IsParser-IsAltOf};
ghost use Rattle.winnow_combinator.specs.AltOf.{IsAltOfAll, AltErrorsOfAll, IsParser-IsAltOfAll};

use crate::Alt;
use crate::appended::Appended;
use std::alloc::Global;
use winnow_error::ParserError;
use winnow_parser::{Failure, ModalResult, Parser};
use winnow_stream::StreamIsPartial;

// A first parser and those of a slice after it, of which the first that does not backtrack counts.
#[derive_where(Clone, Copy)]
struct FirstOf<'a, P> {
    first: &'a P,
    rest: &'a [P],
}

impl<I: StreamIsPartial, E: ParserError<I>, P: Parser<I, E>> Parser<I, E> for FirstOf<'_, P> {
    type Output = P::Output;

    ghost means = { λ p. IsAltOf E.or_refusable P.means (P.means p.first.now) p.rest.now };

    ghost errors = { λ p. AltErrorsOf (ahead I.location I.remaining) E.or_refusable E.or_gives
        P.means P.errors (P.means p.first.now) (P.errors p.first.now) p.rest.now };

    ghost ready = { λ p. P.ready p.first.now × All P.ready p.rest.now };

    ghost lawful = { λ p. IsParser-IsAltOf E.or_refusable P.means P.lawful (P.means p.first.now)
        (P.lawful p.first.now) p.rest.now };

    fn parse_next(&self, alloc: Global, input: &mut I) -> ModalResult<P::Output, E> {
        let start = input.checkpoint();
        let mut error = match self.first.parse_next(alloc, input) {
            Err(Failure::Backtrack(error)) => error,
            Ok(value) => return Ok(value),
            Err(Failure::Cut(error)) => return Err(Failure::Cut(error)),
            Err(Failure::Incomplete(needed)) => return Err(Failure::Incomplete(needed)),
            Err(Failure::Refused(refused)) => return Err(Failure::Refused(refused)),
        };
        let mut rest = self.rest;
        'parsers: while let Some((parser, later)) = rest.split_first() {
            input.reset(&start);
            match parser.parse_next(alloc, input) {
                Err(Failure::Backtrack(other)) => match error.or(alloc, other) {
                    Ok(joined) => error = joined,
                    Err(refused) => return Err(Failure::Refused(refused)),
                },
                Ok(value) => return Ok(value),
                Err(Failure::Cut(error)) => return Err(Failure::Cut(error)),
                Err(Failure::Incomplete(needed)) => return Err(Failure::Incomplete(needed)),
                Err(Failure::Refused(refused)) => return Err(Failure::Refused(refused)),
            }
            rest = later;
        }
        Err(Failure::Backtrack(error))
    }
}

/// Tries the parsers of a slice in turn. With none, it cuts at once.
impl<I: StreamIsPartial, E: ParserError<I>, P: Parser<I, E>> Parser<I, E> for Alt<&[P]> {
    type Output = P::Output;

    ghost means = { λ p. IsAltOfAll E.append_refusable E.or_refusable P.means p.list.now };

    ghost errors = { λ p. AltErrorsOfAll (ahead I.location I.remaining)
        (ahead I.Checkpoint.location I.remained) E.or_refusable E.or_gives E.append_gives
        E.assert_gives P.means P.errors p.list.now };

    ghost ready = { λ p. All P.ready p.list.now };

    ghost lawful = { λ p. IsParser-IsAltOfAll E.append_refusable E.or_refusable P.means P.lawful
        p.list.now };

    fn parse_next(&self, alloc: Global, input: &mut I) -> ModalResult<P::Output, E> {
        let Some((first, rest)) = self.list.split_first() else {
            let message = "`alt` needs at least one parser";
            return Err(Failure::Cut(E::assert(alloc, input, message)));
        };
        let all = FirstOf { first, rest };
        Appended { inner: &all }.parse_next(alloc, input)
    }
}

/// Tries the parsers of an array in turn. With none, it cuts at once.
impl<I: StreamIsPartial, E: ParserError<I>, P: Parser<I, E>, const N: usize> Parser<I, E>
    for Alt<[P; N]> {
    type Output = P::Output;

    ghost means = { λ p. IsAltOfAll E.append_refusable E.or_refusable P.means p.list };

    ghost errors = { λ p. AltErrorsOfAll (ahead I.location I.remaining)
        (ahead I.Checkpoint.location I.remained) E.or_refusable E.or_gives E.append_gives
        E.assert_gives P.means P.errors p.list };

    ghost ready = { λ p. All P.ready p.list };

    ghost lawful = { λ p. IsParser-IsAltOfAll E.append_refusable E.or_refusable P.means P.lawful
        p.list };

    fn parse_next(&self, alloc: Global, input: &mut I) -> ModalResult<P::Output, E> {
        let list = self.list.as_slice();
        Alt { list }.parse_next(alloc, input)
    }
}
