//! Floats: a call of the law, and of the parser through its bounds and at streams that a program
//! has. Nothing here is part of the library.
#![tactic(auto)]

ghost use Rattle.std.specs.Prelude.{◌≡◌, IfOk, IfErr};
ghost use Rattle.winnow_parser.specs.Answer.{ahead};
ghost use Rattle.winnow_parser.specs.Errors.{OwnErrors};
ghost use Rattle.law_floats.specs.Readings.{IsOfFront};

use fast_float::FastFloat;
use std::alloc::Global;
use winnow_error::{EmptyError, ParserError};
use winnow_float::{determined_float_law, float};
use winnow_parser::{ModalResult, Parser};
use winnow_sets::AsChar;
use winnow_stream::{AsBStr, StreamIsPartial};
use winnow_wrap::Partial;

type Pieces = Partial<&'static [u8]>;

/// Calls the law at streams that a program has.
pub fn call_the_law() {
    determined_float_law::<&'static str, f64, usize>();
    determined_float_law::<Pieces, f32, usize>();
}

/// Reads a float: that of the bytes which were consumed, or else an error that is made of the
/// stream as it is left.
pub fn read_float<I: StreamIsPartial, E: ParserError<I>, R: FastFloat>(
    alloc: Global,
    input: &mut I,
) -> ModalResult<R, E>
where
    I::Token: AsChar + Copy,
    I::Slice: AsBStr + Drop,
    requires { I.valid input.old }
    ensures value { IfOk result (IsOfFront R.format R.value I.Slice.text_bytes I.is_slice
        (ahead I.location I.remaining input.old) (ahead I.location I.remaining input.new)) }
    ensures error { IfErr result (OwnErrors E.from_input_gives E.assert_gives
        (I.expects_more input.old) (ahead I.location I.remaining input.old) input.new) }
{
    float::<R>().parse_next(alloc, input)
}

/// Reads a float at the front of a text, and returns whether there is one.
pub fn read_text(alloc: Global, text: &'static str) -> bool {
    let mut input = text;
    let answer: ModalResult<f64, EmptyError> = read_float(alloc, &mut input);
    answer.is_ok()
}

/// Reads a float at the front of a piece, and returns whether there is one.
pub fn read_piece(alloc: Global, piece: &'static [u8]) -> bool {
    let mut input = Partial::new(piece);
    let answer: ModalResult<f32, EmptyError> = read_float(alloc, &mut input);
    answer.is_ok()
}
