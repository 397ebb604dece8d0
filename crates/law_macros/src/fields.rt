//! `seq!` for a struct, a tuple struct, a tuple, and a struct whose other fields come from a value.

use std::alloc::Global;
use winnow_ascii::{dec_uint, space0};
use winnow_count::ParseSlice;
use winnow_error::{EmptyError, ParserError};
use winnow_macros::seq;
use winnow_parser::{ModalResult, Parser};
use winnow_sets::AsChar;
use winnow_stream::StreamIsPartial;
use winnow_token::one_of;

/// A point of the plane.
#[derive(Clone, Copy, Debug, Drop, PartialEq, Eq)]
pub struct Point {
    /// From the left
    pub x: u32,
    /// From below
    pub y: u32,
}

/// A range of numbers.
#[derive(Clone, Copy, Debug, Drop, PartialEq, Eq)]
pub struct Range(pub u32, pub u32);

/// Reads a point, as `3, 5`.
pub fn read_point<I: StreamIsPartial, E: ParserError<I>>(
    alloc: Global,
    input: &mut I,
) -> ModalResult<Point, E>
where
    I::Token: AsChar + Copy + Drop,
    I::Slice: ParseSlice<u32> + Drop,
    requires { I.valid input.old }
{
    let point = seq! {Point {
        x: dec_uint::<u32>(),
        _: (one_of(','), space0()),
        y: dec_uint::<u32>(),
    }};
    point.parse_next(alloc, input)
}

/// Reads two numbers, as `3, 5`.
pub fn read_pair<I: StreamIsPartial, E: ParserError<I>>(
    alloc: Global,
    input: &mut I,
) -> ModalResult<(u32, u32), E>
where
    I::Token: AsChar + Copy + Drop,
    I::Slice: ParseSlice<u32> + Drop,
    requires { I.valid input.old }
{
    let pair = seq!((dec_uint::<u32>(), _: (one_of(','), space0()), dec_uint::<u32>()));
    pair.parse_next(alloc, input)
}

/// Reads a range, as `3..5`.
pub fn read_range<'a>(alloc: Global, input: &mut &'a str) -> ModalResult<Range, EmptyError> {
    seq!(Range(dec_uint::<u32>(), _: "..", dec_uint::<u32>())).parse_next(alloc, input)
}

/// Reads how far from the left a point of this level is, as `x=3`.
pub fn read_level<'a>(
    alloc: Global,
    input: &mut &'a str,
    level: Point,
) -> ModalResult<Point, EmptyError> {
    seq!(Point { _: "x=", x: dec_uint::<u32>(), ..level }).parse_next(alloc, input)
}
