//! `float`, the parser of a float in decimal digits.

ghost use Rattle.winnow_parser.specs.Errors.{OwnErrors};
ghost use Rattle.winnow_float.specs.Float.{IsReadAs, IsFloat, IsParser-IsFloat};

use crate::text::FloatText;
use fast_float::FastFloat;
use std::alloc::Global;
use std::marker::PhantomData;
use winnow_error::ParserError;
use winnow_parser::{ModalResult, Parser};
use winnow_sets::AsChar;
use winnow_stream::{AsBStr, StreamIsPartial};

// Returns the float that the bytes write, if they write one.
fn read_float<R: FastFloat>(bytes: &[u8]) -> Option<R>
    ensures { IsReadAs R.format R.value bytes.now result }
{
    match fast_float::parse(bytes) {
        Ok(value) => Some(value),
        Err(_) => None,
    }
}

/// A parser of a float in decimal digits; [`float`](crate::float) makes it.
#[derive(Drop)]
#[derive_where(Clone, Copy)]
pub struct Float<R> {
    pub(crate) value: PhantomData<R>,
}

impl<I: StreamIsPartial, E: ParserError<I>, R: FastFloat> Parser<I, E> for Float<R>
where
    I::Token: AsChar + Copy,
    I::Slice: AsBStr + Drop,
{
    type Output = R;

    ghost means = { λ _. IsFloat R.format R.value I.Slice.text_bytes I.is_slice I.Token.code };

    ghost errors = { λ _. OwnErrors E.from_input_gives E.assert_gives };

    ghost ready = { λ _. Unit {0} };

    ghost lawful = { λ _. IsParser-IsFloat R.format R.value I.Slice.text_bytes
        I.is_slice I.slices_stay I.Token.code };

    fn parse_next(&self, alloc: Global, input: &mut I) -> ModalResult<R, E> {
        FloatText
            .take()
            .verify_map(
                |slice: I::Slice| -> Option<R>
                    ensures { IsReadAs R.format R.value (I.Slice.text_bytes slice) result }
                { read_float(slice.as_bstr()) },
            )
            .parse_next(alloc, input)
    }
}
