//! The text of a float: `Exponent`, `Decimal`, `Magnitude` and `FloatText`.

ghost use Rattle.winnow_parser.specs.Errors.{OwnErrors};
ghost use Rattle.winnow_float.specs.FloatText.{IsExponent, IsDecimal, IsMagnitude, IsFloatText};
ghost use Rattle.winnow_float.specs.FloatText.{IsParser-IsExponent, IsParser-IsDecimal};
ghost use Rattle.winnow_float.specs.FloatText.{IsParser-IsMagnitude, IsParser-IsFloatText};

use crate::if_next::IfNext;
use crate::mark::Mark;
use crate::parts::{Digits, Word};
use std::alloc::Global;
use winnow_combinator::opt;
use winnow_error::ParserError;
use winnow_parser::{ModalResult, Parser};
use winnow_sets::AsChar;
use winnow_stream::StreamIsPartial;

// A parser of an exponent, or of nothing if no `e` comes next.
#[derive(Clone, Copy)]
struct Exponent;

impl<I: StreamIsPartial, E: ParserError<I>> Parser<I, E> for Exponent
where
    I::Token: AsChar + Copy,
    I::Slice: Drop,
{
    type Output = ();

    ghost means = { λ _. IsExponent I.is_slice I.Token.code };

    ghost errors = { λ _. OwnErrors E.from_input_gives E.assert_gives };

    ghost ready = { λ _. Unit {0} };

    ghost lawful = { λ _. IsParser-IsExponent I.is_slice I.slices_stay I.Token.code };

    fn parse_next(&self, alloc: Global, input: &mut I) -> ModalResult<(), E> {
        let exponent = IfNext {
            set: Mark::Letter(b'e'),
            first: (Mark::Letter(b'e'), opt(Mark::Sign), Digits { least: 1 }),
            second: (),
        };
        exponent.parse_next(alloc, input)
    }
}

// A parser of digits with a point or none, and of an exponent if one comes.
#[derive(Clone, Copy)]
struct Decimal;

impl<I: StreamIsPartial, E: ParserError<I>> Parser<I, E> for Decimal
where
    I::Token: AsChar + Copy,
    I::Slice: Drop,
{
    type Output = ();

    ghost means = { λ _. IsDecimal I.is_slice I.Token.code };

    ghost errors = { λ _. OwnErrors E.from_input_gives E.assert_gives };

    ghost ready = { λ _. Unit {0} };

    ghost lawful = { λ _. IsParser-IsDecimal I.is_slice I.slices_stay I.Token.code };

    fn parse_next(&self, alloc: Global, input: &mut I) -> ModalResult<(), E> {
        let fraction = opt((Mark::Point, Digits { least: 0 }));
        let decimal = IfNext {
            set: Mark::Point,
            first: (Mark::Point, Digits { least: 1 }, Exponent),
            second: (Digits { least: 1 }, fraction, Exponent),
        };
        decimal.parse_next(alloc, input)
    }
}

// A parser of `inf`, of `infinity`, or of a number without a sign.
#[derive(Clone, Copy)]
struct Magnitude;

impl<I: StreamIsPartial, E: ParserError<I>> Parser<I, E> for Magnitude
where
    I::Token: AsChar + Copy,
    I::Slice: Drop,
{
    type Output = ();

    ghost means = { λ _. IsMagnitude I.is_slice I.Token.code };

    ghost errors = { λ _. OwnErrors E.from_input_gives E.assert_gives };

    ghost ready = { λ _. Unit {0} };

    ghost lawful = { λ _. IsParser-IsMagnitude I.is_slice I.slices_stay I.Token.code };

    fn parse_next(&self, alloc: Global, input: &mut I) -> ModalResult<(), E> {
        let i = Mark::Letter(b'i');
        let n = Mark::Letter(b'n');
        let inf = Word {
            letters: (i, n, Mark::Letter(b'f')),
        };
        let inity = Word {
            letters: (i, n, i, Mark::Letter(b't'), Mark::Letter(b'y')),
        };
        let magnitude = IfNext {
            set: i,
            first: (inf, opt(inity)),
            second: Decimal,
        };
        magnitude.parse_next(alloc, input)
    }
}

// A parser of the text of a float.
#[derive(Clone, Copy)]
pub(crate) struct FloatText;

impl<I: StreamIsPartial, E: ParserError<I>> Parser<I, E> for FloatText
where
    I::Token: AsChar + Copy,
    I::Slice: Drop,
{
    type Output = ();

    ghost means = { λ _. IsFloatText I.is_slice I.Token.code };

    ghost errors = { λ _. OwnErrors E.from_input_gives E.assert_gives };

    ghost ready = { λ _. Unit {0} };

    ghost lawful = { λ _. IsParser-IsFloatText I.is_slice I.slices_stay I.Token.code };

    fn parse_next(&self, alloc: Global, input: &mut I) -> ModalResult<(), E> {
        let n = Mark::Letter(b'n');
        let text = IfNext {
            set: n,
            first: Word {
                letters: (n, Mark::Letter(b'a'), n),
            },
            second: (opt(Mark::Sign), Magnitude),
        };
        text.parse_next(alloc, input)
    }
}
