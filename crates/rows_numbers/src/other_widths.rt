//! Parsers of numbers of one byte by their order, of three bytes and of sixteen, and of floats.

use crate::binary::order;
use rows::Fault;
use rows_fronts::{Fronts, Row, ask};
use std::alloc::Global;
use winnow_binary::{
    be_f32, be_f64, be_i8, be_i24, be_i128, be_u8, be_u24, be_u128, f32, f64, i24, i128, le_f32,
    le_f64, le_i8, le_i24, le_i128, le_u8, le_u24, le_u128, u24, u128,
};
use winnow_stream::Stream;

/// Answers the parsers of numbers of three bytes.
pub fn three<I: Fronts + Stream<Token = u8>>(
    alloc: Global,
    (name, end): (&str, &str),
    row: &Row<I::Whole>,
) -> Result<String, Fault> {
    match name {
        "be_u24" => ask::<I, _>(alloc, &be_u24(), row),
        "le_u24" => ask::<I, _>(alloc, &le_u24(), row),
        "u24" => ask::<I, _>(alloc, &u24(order(end)), row),
        "be_i24" => ask::<I, _>(alloc, &be_i24(), row),
        "le_i24" => ask::<I, _>(alloc, &le_i24(), row),
        "i24" => ask::<I, _>(alloc, &i24(order(end)), row),
        _ => Err(Fault::NoSuchCall),
    }
}

/// Answers the parsers of numbers of sixteen bytes, and of one byte by its order.
pub fn others<I: Fronts + Stream<Token = u8>>(
    alloc: Global,
    (name, end): (&str, &str),
    row: &Row<I::Whole>,
) -> Result<String, Fault> {
    match name {
        "be_u8" => ask::<I, _>(alloc, &be_u8(), row),
        "le_u8" => ask::<I, _>(alloc, &le_u8(), row),
        "be_i8" => ask::<I, _>(alloc, &be_i8(), row),
        "le_i8" => ask::<I, _>(alloc, &le_i8(), row),
        "be_u128" => ask::<I, _>(alloc, &be_u128(), row),
        "le_u128" => ask::<I, _>(alloc, &le_u128(), row),
        "u128" => ask::<I, _>(alloc, &u128(order(end)), row),
        "be_i128" => ask::<I, _>(alloc, &be_i128(), row),
        "le_i128" => ask::<I, _>(alloc, &le_i128(), row),
        "i128" => ask::<I, _>(alloc, &i128(order(end)), row),
        _ => Err(Fault::NoSuchCall),
    }
}

/// Answers the parsers of floats.
pub fn floats<I: Fronts + Stream<Token = u8>>(
    alloc: Global,
    (name, end): (&str, &str),
    row: &Row<I::Whole>,
) -> Result<String, Fault> {
    match name {
        "be_f32" => ask::<I, _>(alloc, &be_f32(), row),
        "le_f32" => ask::<I, _>(alloc, &le_f32(), row),
        "f32" => ask::<I, _>(alloc, &f32(order(end)), row),
        "be_f64" => ask::<I, _>(alloc, &be_f64(), row),
        "le_f64" => ask::<I, _>(alloc, &le_f64(), row),
        "f64" => ask::<I, _>(alloc, &f64(order(end)), row),
        _ => Err(Fault::NoSuchCall),
    }
}
