//! Parsers of a number in decimal digits: `dec_uint`, and `dec_int` with a sign.

ghost use Rattle.std.specs.Prelude.{IfErr};
ghost use Rattle.winnow_count.specs.Reading.{IsSomeExactly};
ghost use Rattle.winnow_parser.specs.Outcome.{Moves};
ghost use Rattle.winnow_parser.specs.Answer.{ahead, outcome};
ghost use Rattle.winnow_parser.specs.Meanings.{VerifyMaps, Maps, IsForgotten};
ghost use Rattle.winnow_parser.specs.Taken.{Taken, IsParser-Taken};
ghost use Rattle.winnow_combinator.specs.Appended.{AppendedErrors};
ghost use Rattle.winnow_ascii.specs.Numbers.{IsDecUint, ReadAs, DigitErrors, ReadErrors, Digits};
ghost use Rattle.winnow_ascii.specs.Numbers.{IsParser-IsDecUint, IsParser-ReadAs};

use crate::digit0;
use std::alloc::Global;
use std::marker::PhantomData;
use winnow_combinator::alt;
use winnow_count::ParseSlice;
use winnow_error::ParserError;
use winnow_parser::{Failure, ModalResult, Parser};
use winnow_sets::AsChar;
use winnow_stream::StreamIsPartial;
use winnow_token::one_of;

// A parser of the slice of a number's digits.
#[derive(Clone, Copy)]
struct UnsignedDigits;

impl<I: StreamIsPartial, E: ParserError<I>> Parser<I, E> for UnsignedDigits
where
    I::Token: AsChar + Copy,
    I::Slice: Drop,
{
    type Output = I::Slice;

    ghost means = { λ _. Taken I.is_slice (IsDecUint E.or_refusable E.append_refusable I.is_slice
        I.Token.code) };

    ghost errors = { λ _. AppendedErrors (ahead I.Checkpoint.location I.remained) E.append_gives
        (DigitErrors (ahead I.location I.remaining)
        (Maps IsForgotten (Digits I.is_slice I.Token.code))
        E.from_input_gives E.assert_gives E.or_gives) };

    ghost ready = { λ _. Unit {0} };

    ghost lawful = { λ _. IsParser-Taken I.is_slice I.slices_stay _
        (IsParser-IsDecUint E.or_refusable E.append_refusable I.is_slice I.slices_stay
        I.Token.code) };

    #[inline(always)]
    fn parse_next(&self, alloc: Global, input: &mut I) -> ModalResult<I::Slice, E> {
        let digits = (one_of('1'..='9'), digit0());
        alt((digits.void(), one_of('0').void()))
            .take()
            .parse_next(alloc, input)
    }
}

// Reads the value that the slice of a parser reads as. Where it reads as none, the stream is reset,
// and a backtrack is returned.
#[inline(always)]
pub(crate) fn read_as<I: StreamIsPartial, E: ParserError<I>, P: Parser<I, E, Output = I::Slice>, R>(
    digits: &P,
    alloc: Global,
    input: &mut I,
) -> ModalResult<R, E>
where
    I::Slice: ParseSlice<R> + Drop,
    requires ready { P.ready digits.now }
    requires valid { I.valid input.old }
    ensures means { VerifyMaps (λ slice value. IsSomeExactly (I.Slice.reads slice) value)
        (P.means digits.now)
        (I.expects_more input.old)
        (ahead I.location I.remaining input.old)
        (outcome result (ahead I.location I.remaining input.new)) }
    ensures onward { Moves (ahead I.location I.remaining input.old)
        (ahead I.location I.remaining input.new) }
    ensures error { IfErr result (ReadErrors I.Slice.reads E.from_input_gives
        (P.means digits.now) (P.errors digits.now) (I.expects_more input.old)
        (ahead I.location I.remaining input.old) input.new) }
    ensures valid { I.valid input.new }
    ensures kept { I.keeps input.old input.new }
{
    let start = input.checkpoint();
    match digits.parse_next(alloc, input) {
        Ok(slice) => match slice.parse_slice() {
            Some(value) => Ok(value),
            None => {
                input.reset(&start);
                Err(Failure::Backtrack(E::from_input(alloc, input)))
            }
        },
        Err(Failure::Backtrack(error)) => Err(Failure::Backtrack(error)),
        Err(Failure::Cut(error)) => Err(Failure::Cut(error)),
        Err(Failure::Incomplete(needed)) => Err(Failure::Incomplete(needed)),
        Err(Failure::Refused(refused)) => Err(Failure::Refused(refused)),
    }
}

/// A parser of a number in decimal digits; [`dec_uint`] makes it.
#[derive_where(Clone, Copy)]
pub struct DecUint<R> {
    pub(crate) value: PhantomData<R>,
}

impl<I: StreamIsPartial, E: ParserError<I>, R> Parser<I, E> for DecUint<R>
where
    I::Token: AsChar + Copy,
    I::Slice: ParseSlice<R> + Drop,
{
    type Output = R;

    ghost means = { λ _. ReadAs I.Slice.reads I.is_slice
        (IsDecUint E.or_refusable E.append_refusable I.is_slice I.Token.code) };

    ghost errors = { λ _. ReadErrors I.Slice.reads E.from_input_gives
        (Taken I.is_slice (IsDecUint E.or_refusable E.append_refusable I.is_slice I.Token.code))
        (AppendedErrors (ahead I.Checkpoint.location I.remained) E.append_gives
        (DigitErrors (ahead I.location I.remaining)
        (Maps IsForgotten (Digits I.is_slice I.Token.code))
        E.from_input_gives E.assert_gives E.or_gives)) };

    ghost ready = { λ _. Unit {0} };

    ghost lawful = { λ _. IsParser-ReadAs I.Slice.reads I.is_slice I.slices_stay _
        (IsParser-IsDecUint E.or_refusable E.append_refusable I.is_slice I.slices_stay
        I.Token.code) };

    fn parse_next(&self, alloc: Global, input: &mut I) -> ModalResult<R, E> {
        read_as(&UnsignedDigits, alloc, input)
    }
}
