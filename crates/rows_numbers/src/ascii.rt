//! Parsers of ASCII text: classes of characters, lines, numbers, and text with escapes.

use rows::{Fault, Words};
use rows_fronts::{Fronts, Row, ask};
use std::alloc::Global;
use std::fmt::Debug;
use winnow_ascii::{
    Fragment, HexUint, alpha0, alpha1, alphanumeric0, alphanumeric1, crlf, dec_int, dec_uint,
    digit0, digit1, escaped, hex_digit0, hex_digit1, hex_uint, line_ending, multispace0,
    multispace1, newline, oct_digit0, oct_digit1, space0, space1, tab, take_escaped,
    till_line_ending,
};
use winnow_combinator::alt;
use winnow_count::{Accumulate, Readable};
use winnow_error::EmptyError;
use winnow_match::Compare;
use winnow_parser::Parser;
use winnow_sets::AsChar;
use winnow_stream::Stream;
use winnow_token::{literal, one_of};

/// Answers the parsers of a class of characters.
pub fn classes<I: Fronts>(alloc: Global, name: &str, row: &Row<I::Whole>) -> Result<String, Fault>
where
    I::Token: AsChar + Copy,
    I::Slice: Debug + Drop,
{
    let parser = match name {
        "alpha0" => alpha0(),
        "alpha1" => alpha1(),
        "digit0" => digit0(),
        "digit1" => digit1(),
        "alphanumeric0" => alphanumeric0(),
        "alphanumeric1" => alphanumeric1(),
        "hex_digit0" => hex_digit0(),
        "hex_digit1" => hex_digit1(),
        "oct_digit0" => oct_digit0(),
        "oct_digit1" => oct_digit1(),
        "space0" => space0(),
        "space1" => space1(),
        "multispace0" => multispace0(),
        "multispace1" => multispace1(),
        _ => return Err(Fault::NoSuchCall),
    };
    ask::<I, _>(alloc, &parser, row)
}

/// Answers the parsers of the ends of lines, and of a tab.
pub fn lines<I: Fronts + Compare<&'static str>>(
    alloc: Global,
    name: &str,
    row: &Row<I::Whole>,
) -> Result<String, Fault>
where
    I::Token: AsChar + Copy + Drop,
    I::Slice: Debug + Drop,
{
    match name {
        "newline" => ask::<I, _>(alloc, &newline(), row),
        "tab" => ask::<I, _>(alloc, &tab(), row),
        "crlf" => ask::<I, _>(alloc, &crlf(), row),
        "line_ending" => ask::<I, _>(alloc, &line_ending(), row),
        "till_line_ending" => ask::<I, _>(alloc, &till_line_ending(), row),
        _ => Err(Fault::NoSuchCall),
    }
}

// Answers the parsers of numbers in decimal digits.
fn decimal<'w, I: Fronts + Stream<Token = char, Slice = &'w str>, R: Readable + Debug + Drop>(
    alloc: Global,
    is_signed: bool,
    row: &Row<I::Whole>,
) -> Result<String, Fault> {
    if is_signed {
        return ask::<I, _>(alloc, &dec_int::<R>(), row);
    }
    ask::<I, _>(alloc, &dec_uint::<R>(), row)
}

// Answers the parser of a number in hexadecimal digits.
fn hexadecimal<'w, I: Fronts + Stream<Token = char, Slice = &'w str>, R: HexUint + Debug + Drop>(
    alloc: Global,
    row: &Row<I::Whole>,
) -> Result<String, Fault> {
    ask::<I, _>(alloc, &hex_uint::<R>(), row)
}

/// Answers the parsers of numbers.
pub fn numbers<'w, I: Fronts + Stream<Token = char, Slice = &'w str>>(
    alloc: Global,
    name: &str,
    row: &Row<I::Whole>,
) -> Result<String, Fault> {
    match name {
        "dec_uint::<u8>" => decimal::<I, u8>(alloc, false, row),
        "dec_uint::<u32>" => decimal::<I, u32>(alloc, false, row),
        "dec_uint::<u64>" => decimal::<I, u64>(alloc, false, row),
        "dec_int::<i8>" => decimal::<I, i8>(alloc, true, row),
        "dec_int::<i32>" => decimal::<I, i32>(alloc, true, row),
        "dec_int::<i64>" => decimal::<I, i64>(alloc, true, row),
        "hex_uint::<u8>" => hexadecimal::<I, u8>(alloc, row),
        "hex_uint::<u16>" => hexadecimal::<I, u16>(alloc, row),
        "hex_uint::<u32>" => hexadecimal::<I, u32>(alloc, row),
        "hex_uint::<u64>" => hexadecimal::<I, u64>(alloc, row),
        "hex_uint::<u128>" => hexadecimal::<I, u128>(alloc, row),
        "hex_uint::<usize>" => hexadecimal::<I, usize>(alloc, row),
        _ => Err(Fault::NoSuchCall),
    }
}

// Answers a parser of a text.
fn ask_text<I: Fronts, P: Parser<I, EmptyError, Output = String>>(
    alloc: Global,
    parser: &P,
    row: &Row<I::Whole>,
) -> Result<String, Fault>
    requires { P.ready parser.now }
{
    ask::<I, P>(alloc, parser, row)
}

/// Answers `escaped(alpha1(), '\\', escapes)`, whose escapes are those of a newline, a quote and a
/// backslash, and `take_escaped`, whose escapes are a quote and `n`.
pub fn escapes<'w, I>(alloc: Global, call: &Words, row: &Row<I::Whole>) -> Result<String, Fault>
where
    I: Fronts + Stream<Token = char, Slice = &'w str> + Compare<char> + Compare<&'static str>,
{
    let escapable = alt((literal("n").value('\n'), one_of(('"', '\\'))));
    let kept = one_of(('"', 'n'));
    match (call.plain(0)?, call.plain(1)?) {
        ("escaped", _) => { ask_text::<I, _>(alloc, &escaped(alpha1(), '\\', escapable), row) }
        ("take_escaped", "alpha0") => {
            ask::<I, _>(alloc, &take_escaped(alpha0(), '\\', kept), row)
        }
        ("take_escaped", _) => ask::<I, _>(alloc, &take_escaped(alpha1(), '\\', kept), row),
        _ => Err(Fault::NoSuchCall),
    }
}

/// Answers `escaped(alpha1(), '%', one_of((b'%', b'&')))`, over bytes.
pub fn escaped_bytes<I>(alloc: Global, row: &Row<I::Whole>) -> Result<String, Fault>
where
    I: Fronts + Stream<Token = u8> + Compare<char>,
    Vec<u8>: Accumulate<Fragment<I::Slice, u8>>,
    I::Slice: Drop,
{
    let parser = escaped::<_, _, Vec<u8>>(alpha1(), '%', one_of((b'%', b'&')));
    ask::<I, _>(alloc, &parser, row)
}
