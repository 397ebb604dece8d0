//! Folds: a call of each law, and of each parser through its bounds and at streams that a
//! program has. Nothing here is part of the library.
#![tactic(auto)]

use std::alloc::Global;
use winnow_combinator::{determined_foldr1_law, determined_try_fold_law, repeat, separated_foldr1};
use winnow_error::{EmptyError, FromExternalError, ParserError};
use winnow_parser::{ModalResult, Parser};
use winnow_sets::AsChar;
use winnow_stream::StreamIsPartial;
use winnow_token::{Any, one_of};
use winnow_wrap::Partial;

type Pieces = Partial<&'static [u8]>;

/// Calls each law at types that a program has.
pub fn call_each_law() {
    type Start = fn() -> u8;
    type Choice = fn(u8, u8) -> Option<u8>;
    type Trial = fn(u8, u8) -> Result<u8, EmptyError>;
    type Join = fn(u8, u8, u8) -> u8;
    determined_try_fold_law::<
        Pieces,
        EmptyError,
        Any,
        u8,
        EmptyError,
        Start,
        Choice,
        Trial,
        usize,
        usize,
    >();
    determined_foldr1_law::<Pieces, EmptyError, Any, Any, Join, usize, usize>();
}

/// Counts digits, up to 255: by a function that makes nothing of more.
pub fn count_verified<I: StreamIsPartial, E: ParserError<I>>(
    alloc: Global,
    input: &mut I,
) -> ModalResult<u8, E>
where
    I::Token: AsChar + Copy,
    requires { I.valid input.old }
{
    let digit = one_of('0'..='9');
    let count = repeat(1.., digit).verify_fold(|| 0, |count: u8, _: I::Token| count.checked_add(1));
    count.parse_next(alloc, input)
}

/// Counts digits, up to 255: by a function that fails at more.
pub fn count_tried<I: StreamIsPartial, E: ParserError<I> + FromExternalError<I, &'static str>>(
    alloc: Global,
    input: &mut I,
) -> ModalResult<u8, E>
where
    I::Token: AsChar + Copy,
    requires { I.valid input.old }
{
    let digit = one_of('0'..='9');
    let count = repeat(1.., digit).try_fold(
        || 0,
        |count: u8, _: I::Token| { count.checked_add(1).ok_or("more than 255 digits") },
    );
    count.parse_next(alloc, input)
}

/// Reads digits with commas between them, and returns the last one.
pub fn last_of<I: StreamIsPartial, E: ParserError<I>>(
    alloc: Global,
    input: &mut I,
) -> ModalResult<I::Token, E>
where
    I::Token: AsChar + Copy,
    requires { I.valid input.old }
{
    let last = |_: I::Token, _: I::Token, right: I::Token| right;
    separated_foldr1(one_of('0'..='9'), one_of(','), last).parse_next(alloc, input)
}

/// Reads digits of a text by all three, and returns whether each succeeded.
pub fn read_text(alloc: Global, text: &'static str) -> bool {
    let (mut first, mut second, mut third) = (text, text, text);
    let verified: ModalResult<u8, EmptyError> = count_verified(alloc, &mut first);
    let tried: ModalResult<u8, EmptyError> = count_tried(alloc, &mut second);
    let last: ModalResult<char, EmptyError> = last_of(alloc, &mut third);
    verified.is_ok() && tried.is_ok() && last.is_ok()
}

/// Reads digits of a piece by all three, and returns whether each succeeded.
pub fn read_piece(alloc: Global, piece: &'static [u8]) -> bool {
    let mut first = Partial::new(piece);
    let mut second = Partial::new(piece);
    let mut third = Partial::new(piece);
    let verified: ModalResult<u8, EmptyError> = count_verified(alloc, &mut first);
    let tried: ModalResult<u8, EmptyError> = count_tried(alloc, &mut second);
    let last: ModalResult<u8, EmptyError> = last_of(alloc, &mut third);
    verified.is_ok() && tried.is_ok() && last.is_ok()
}
