//! The laws of parsers, each called once. They do nothing, so the calls show that they can be
//! called.

use crate::value_tests::value_test_law;
use winnow_ascii::{Fragment, ascii_law, determined_escaped_law, determined_number_law};
use winnow_binary::{
    Numeral, binary_number_law, bit_fields_law, determined_bit_fields_law, determined_length_law,
    determined_slice_read_law,
};
use winnow_combinator::{
    Accumulated, Gather, alternative_errors_law, alternatives_law, determined_choice_law,
    determined_choosing_law, determined_end_law, determined_gathered_law, determined_list_law,
    determined_repeat_law, determined_row_law, determined_sequence_law, determined_till_law,
    determined_value_law,
};
use winnow_count::Accumulate;
use winnow_error::{AddContext, AssociativeOr, EmptyError, ParserError};
use winnow_parser::{
    ByValue, Parser, ValueTest, determined_function_law, determined_law, determined_pair_law,
    determined_reading_law, determined_slice_law, parser_law, taken_width_law,
};
use winnow_permutation::determined_permutation_law;
use winnow_stream::{Stream, StreamIsPartial};
use winnow_token::{Any, Take, any, count_law, determined_token_law, hits_stay_law, prompt_law};
use winnow_wrap::Partial;

type Text = Partial<&'static str>;

type Bytes = Partial<&'static [u8]>;

type Word = &'static str;

// Calls the laws of parsers and of tokens.
fn call_laws<
    I: StreamIsPartial,
    E: ParserError<I>,
    P: Parser<I, E>,
    G: Gather<P::Output>,
    F: Fn(P::Output) -> P::Output,
    T: ValueTest<P::Output, By>,
    By,
>(parser: &P) {
    taken_width_law::<I::Token>();
    count_law::<I::Token>();
    hits_stay_law();
    prompt_law::<I>();
    determined_token_law::<I, usize>();
    parser_law::<I, E, _>(parser);
    determined_law::<I, E, P, usize>();
    determined_slice_law::<I, E, P, usize, usize>();
    determined_pair_law::<I, E, P, P, P, usize, usize>();
    determined_function_law::<I, E, P, P::Output, F, T, By, usize, usize>();
    determined_repeat_law::<I, E, P, P, G, usize, usize, usize>();
    determined_choice_law::<I, E, P, P, P, P, P, P, P, P, P, P, usize>();
    determined_list_law::<I, E, P, usize>();
    determined_permutation_law::<I, E, P, P, P, P, P, usize, usize, usize, usize, usize>();
    determined_bit_fields_law();
    bit_fields_law();
    determined_end_law::<I, u8, usize>();
}

// Calls the laws of alternatives in alternatives.
fn call_bracket_laws<I: StreamIsPartial, E: AssociativeOr<I>, P: Parser<I, E>>() {
    alternatives_law::<I, E, P, P, P>();
    alternative_errors_law::<I, E, P, P, P>();
}

// Calls the laws of parsers that are made of parts with one answer each.
fn call_part_laws<
    I: StreamIsPartial,
    C,
    E: ParserError<I> + AddContext<I, C>,
    P: Parser<I, E>,
    G: Gather<P::Output>,
    Z,
    F: Fn(P::Output) -> Option<P::Output>,
    T: Fn(P::Output) -> Result<P::Output, Z>,
    H: Fn(P::Output) -> P,
    N: Fn() -> P::Output,
    S: Fn(P::Output, P::Output) -> P::Output,
>() {
    determined_row_law::<I, E, P, P, P, P, P, P, P, P, P, P, usize>();
    determined_sequence_law::<I, E, P, P, P, usize, usize, usize>();
    determined_value_law::<I, C, E, P, P::Output, usize, usize>();
    determined_choosing_law::<I, E, P, P, P::Output, Z, F, T, H, usize, usize, usize>();
    determined_gathered_law::<I, E, P, P, G, P::Output, N, S, usize, usize, usize>();
}

// Calls the law of values up to another.
fn call_till_law<
    I: StreamIsPartial,
    E: ParserError<I>,
    P: Parser<I, E>,
    G: Gather<P::Output>,
    F: Fn(P::Output, P::Output, P::Output) -> P::Output,
>() {
    determined_till_law::<I, E, P, P, G, F, usize, usize, usize>();
}

// Calls the laws of ASCII text.
fn call_ascii_laws<
    I: StreamIsPartial + Stream<Token = char, Slice = Word>,
    E: ParserError<I>,
    P: Parser<I, E>,
    A: Accumulate<Fragment<P::Output, P::Output>>,
>() {
    ascii_law::<I, E>();
    determined_number_law::<I, E, u8, u8, usize>();
    determined_reading_law::<I, E, Take, u8, usize>();
    determined_escaped_law::<I, E, P, P, P, A, usize, usize, usize, usize>();
}

#[test]
fn laws_are_called(_rt: HostRuntime) {
    type Map = fn(char) -> char;
    type Test = fn(&char) -> bool;
    call_laws::<Text, EmptyError, _, Accumulated<usize>, Map, Test, ByValue>(&any());
    type Op = fn(char, char, char) -> char;
    call_till_law::<Text, EmptyError, Any, Accumulated<usize>, Op>();
    call_ascii_laws::<Text, EmptyError, Any, String>();
    call_bracket_laws::<Text, EmptyError, Any>();
    type TextTest = fn(&str) -> bool;
    value_test_law::<char, char, Test, TextTest, fn(&[char]) -> bool, Test>();
}

#[test]
fn laws_of_parts_are_called(_rt: HostRuntime) {
    type Choice = fn(char) -> Option<char>;
    type Trial = fn(char) -> Result<char, u8>;
    type Next = fn(char) -> Any;
    type Start = fn() -> char;
    type Step = fn(char, char) -> char;
    type Whole = Accumulated<usize>;
    call_part_laws::<Text, u8, EmptyError, Any, Whole, u8, Choice, Trial, Next, Start, Step>();
}

#[test]
fn laws_of_numbers_are_called(_rt: HostRuntime) {
    binary_number_law::<u16>();
    binary_number_law::<i64>();
    binary_number_law::<u128>();
    binary_number_law::<f64>();
    determined_length_law::<Bytes, EmptyError, Numeral<u16>, Numeral<u8>, Vec<u8>, usize, u8, u8>();
    determined_slice_read_law::<Bytes, EmptyError, Numeral<u16>, Take, usize>();
}
