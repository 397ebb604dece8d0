//! Parsers of binary formats: numbers of each width and order, and what comes after a count.

use rows::Fault;
use rows_fronts::{Fronts, Row, ask};
use std::alloc::Global;
use std::fmt::Debug;
use winnow_binary::{
    BinaryNumber, Endianness, Numeral, be_i16, be_i32, be_i64, be_u16, be_u32, be_u64, i8, i16,
    i32, i64, le_i16, le_i32, le_i64, le_u16, le_u32, le_u64, length_and_then, length_repeat,
    length_take, u8, u16, u32, u64,
};
use winnow_match::Compare;
use winnow_stream::Stream;
use winnow_token::literal;

// Answers the parser of a number, if there is one.
fn number<I: Fronts + Stream<Token = u8>, N: BinaryNumber + Debug + Drop>(
    alloc: Global,
    parser: Numeral<N>,
    row: &Row<I::Whole>,
) -> Result<String, Fault> {
    ask::<I, _>(alloc, &parser, row)
}

/// Returns the order that a call names.
pub fn order(name: &str) -> Endianness {
    match name {
        "Endianness::Big" => Endianness::Big,
        "Endianness::Native" => Endianness::Native,
        _ => Endianness::Little,
    }
}

/// Answers the parsers of unsigned numbers.
pub fn unsigned<I: Fronts + Stream<Token = u8>>(
    alloc: Global,
    (name, end): (&str, &str),
    row: &Row<I::Whole>,
) -> Result<String, Fault> {
    let order = order(end);
    match name {
        "u8" => number::<I, _>(alloc, u8(), row),
        "be_u16" => number::<I, _>(alloc, be_u16(), row),
        "le_u16" => number::<I, _>(alloc, le_u16(), row),
        "u16" => number::<I, _>(alloc, u16(order), row),
        "be_u32" => number::<I, _>(alloc, be_u32(), row),
        "le_u32" => number::<I, _>(alloc, le_u32(), row),
        "u32" => number::<I, _>(alloc, u32(order), row),
        "be_u64" => number::<I, _>(alloc, be_u64(), row),
        "le_u64" => number::<I, _>(alloc, le_u64(), row),
        "u64" => number::<I, _>(alloc, u64(order), row),
        _ => Err(Fault::NoSuchCall),
    }
}

/// Answers the parsers of signed numbers.
pub fn signed<I: Fronts + Stream<Token = u8>>(
    alloc: Global,
    (name, end): (&str, &str),
    row: &Row<I::Whole>,
) -> Result<String, Fault> {
    let order = order(end);
    match name {
        "i8" => number::<I, _>(alloc, i8(), row),
        "be_i16" => number::<I, _>(alloc, be_i16(), row),
        "le_i16" => number::<I, _>(alloc, le_i16(), row),
        "i16" => number::<I, _>(alloc, i16(order), row),
        "be_i32" => number::<I, _>(alloc, be_i32(), row),
        "le_i32" => number::<I, _>(alloc, le_i32(), row),
        "i32" => number::<I, _>(alloc, i32(order), row),
        "be_i64" => number::<I, _>(alloc, be_i64(), row),
        "le_i64" => number::<I, _>(alloc, le_i64(), row),
        "i64" => number::<I, _>(alloc, i64(order), row),
        _ => Err(Fault::NoSuchCall),
    }
}

/// Answers the parsers of what comes after a count: `length_take(be_u16())`,
/// `length_repeat(u8(), literal("abc"))` and `length_repeat(u8(), be_u16())`.
pub fn counted<I: Fronts + Stream<Token = u8> + Compare<&'static [u8]>>(
    alloc: Global,
    (name, inner): (&str, &str),
    row: &Row<I::Whole>,
) -> Result<String, Fault>
where
    I::Slice: Debug + Drop,
{
    match (name, inner) {
        ("length_take", _) => ask::<I, _>(alloc, &length_take(be_u16()), row),
        ("length_repeat", "literal") => {
            let words = length_repeat::<_, _, Vec<_>>(u8(), literal(b"abc".as_slice()));
            ask::<I, _>(alloc, &words, row)
        }
        ("length_repeat", _) => {
            let numbers = length_repeat::<_, _, Vec<_>>(u8(), be_u16());
            ask::<I, _>(alloc, &numbers, row)
        }
        _ => Err(Fault::NoSuchCall),
    }
}

/// Answers `length_and_then(be_u16(), literal("abc"))`.
pub fn within(alloc: Global, row: &Row<&[u8]>) -> Result<String, Fault> {
    let parser = length_and_then(be_u16(), literal(b"abc".as_slice()));
    ask::<winnow_wrap::Partial<&[u8]>, _>(alloc, &parser, row)
}
