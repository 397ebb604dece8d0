ghost use Rattle.winnow_parser.specs.Answer.{ahead};
ghost use Rattle.winnow_parser.specs.Meanings.{Maps, IsForgotten};
ghost use Rattle.winnow_parser.specs.Taken.{Taken, IsParser-Taken};
ghost use Rattle.winnow_combinator.specs.Appended.{AppendedErrors};
ghost use Rattle.winnow_ascii.specs.Numbers.{IsDecInt, ReadAs, DigitErrors, ReadErrors};
ghost use Rattle.winnow_ascii.specs.Numbers.{SignedDigits};
ghost use Rattle.winnow_ascii.specs.Numbers.{IsParser-IsDecInt, IsParser-ReadAs};

use crate::digit0;
use crate::parsers::dec_uint::read_as;
use std::alloc::Global;
use std::marker::PhantomData;
use winnow_combinator::{alt, opt};
use winnow_count::ParseSlice;
use winnow_error::ParserError;
use winnow_parser::{ModalResult, Parser};
use winnow_sets::AsChar;
use winnow_stream::StreamIsPartial;
use winnow_token::one_of;

// A parser of the slice of a number's sign and digits.
#[derive(Clone, Copy)]
struct SignedDigits;

impl<I: StreamIsPartial, E: ParserError<I>> Parser<I, E> for SignedDigits
where
    I::Token: AsChar + Copy,
    I::Slice: Drop,
{
    type Output = I::Slice;

    ghost means = { λ _. Taken I.is_slice (IsDecInt E.or_refusable E.append_refusable I.is_slice
        I.Token.code) };

    ghost errors = { λ _. AppendedErrors (ahead I.Checkpoint.location I.remained) E.append_gives
        (DigitErrors (ahead I.location I.remaining)
        (Maps IsForgotten (SignedDigits I.is_slice I.Token.code))
        E.from_input_gives E.assert_gives E.or_gives) };

    ghost ready = { λ _. Unit {0} };

    ghost lawful = { λ _. IsParser-Taken I.is_slice I.slices_stay _
        (IsParser-IsDecInt E.or_refusable E.append_refusable I.is_slice I.slices_stay
        I.Token.code) };

    #[inline(always)]
    fn parse_next(&self, alloc: Global, input: &mut I) -> ModalResult<I::Slice, E> {
        let digits = (one_of('1'..='9'), digit0());
        alt(((opt(one_of(('+', '-'))), digits).void(), one_of('0').void()))
            .take()
            .parse_next(alloc, input)
    }
}

/// A parser of a number in decimal digits, with a sign or without; [`dec_int`] makes it.
#[derive_where(Clone, Copy)]
pub struct DecInt<R> {
    pub(crate) value: PhantomData<R>,
}

impl<I: StreamIsPartial, E: ParserError<I>, R> Parser<I, E> for DecInt<R>
where
    I::Token: AsChar + Copy,
    I::Slice: ParseSlice<R> + Drop,
{
    type Output = R;

    ghost means = { λ _. ReadAs I.Slice.reads I.is_slice
        (IsDecInt E.or_refusable E.append_refusable I.is_slice I.Token.code) };

    ghost errors = { λ _. ReadErrors I.Slice.reads E.from_input_gives
        (Taken I.is_slice (IsDecInt E.or_refusable E.append_refusable I.is_slice I.Token.code))
        (AppendedErrors (ahead I.Checkpoint.location I.remained) E.append_gives
        (DigitErrors (ahead I.location I.remaining)
        (Maps IsForgotten (SignedDigits I.is_slice I.Token.code))
        E.from_input_gives E.assert_gives E.or_gives)) };

    ghost ready = { λ _. Unit {0} };

    ghost lawful = { λ _. IsParser-ReadAs I.Slice.reads I.is_slice I.slices_stay _
        (IsParser-IsDecInt E.or_refusable E.append_refusable I.is_slice I.slices_stay
        I.Token.code) };

    fn parse_next(&self, alloc: Global, input: &mut I) -> ModalResult<R, E> {
        read_as(&SignedDigits, alloc, input)
    }
}
