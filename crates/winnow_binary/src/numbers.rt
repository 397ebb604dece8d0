//! Parsers of numbers of each width and byte order: `be_u16`, `le_i32` and their like.

ghost use Rattle.std.specs.Prelude.{◌≡◌};
ghost use Rattle.winnow_parser.specs.Errors.{OwnErrors};
ghost use Rattle.winnow_binary.specs.declared.endianness.Endianness.TheVariants.{Big, Little};
ghost use Rattle.winnow_binary.specs.Numerals.{bytes_in, FixedNumeral, IsParser-FixedNumeral};

use crate::next_number::next_number;
use crate::{BinaryNumber, Endianness};
use std::alloc::Global;
use std::marker::PhantomData;
use winnow_error::ParserError;
use winnow_parser::{Failure, ModalResult, Parser};
use winnow_stream::StreamIsPartial;

/// A parser of a number that a fixed number of bytes writes. [`be_u16`] and the functions beside it
/// make it.
#[derive_where(Clone, Copy)]
pub struct Numeral<R> {
    order: Endianness,
    value: PhantomData<R>,
}

impl<R> Numeral<R> {
    // Returns the parser of the number that the next bytes write in this order.
    pub(crate) fn new(order: Endianness) -> Self
        ensures { result.order ≡ order }
    {
        Numeral {
            order,
            value: PhantomData,
        }
    }
}

impl<I: StreamIsPartial<Token = u8>, E: ParserError<I>, R: BinaryNumber> Parser<I, E>
    for Numeral<R> {
    type Output = R;

    ghost means = { λ p. FixedNumeral I.counts_shortage (bytes_in R.width) R.value_of p.order };

    ghost errors = { λ _. OwnErrors E.from_input_gives E.assert_gives };

    ghost ready = { λ _. Unit {0} };

    ghost lawful = { λ p.
        IsParser-FixedNumeral I.counts_shortage (bytes_in R.width) R.value_of p.order };

    #[inline(always)]
    fn parse_next(&self, alloc: Global, input: &mut I) -> ModalResult<R, E> {
        let width = R::width();
        match input.offset_at(width.bytes()) {
            Ok(_) => Ok(R::from_number(next_number(width, self.order, input))),
            Err(needed) if input.is_partial() => Err(Failure::Incomplete(needed)),
            Err(_) => Err(Failure::Backtrack(E::from_input(alloc, input))),
        }
    }
}

/// Returns the parser of an unsigned number of one byte.
pub fn u8() -> Numeral<u8>
    ensures { result.order ≡ Big }
{
    Numeral::new(Endianness::Big)
}

/// Returns the parser of a signed number of one byte.
pub fn i8() -> Numeral<i8>
    ensures { result.order ≡ Big }
{
    Numeral::new(Endianness::Big)
}

/// Returns the parser of an unsigned number of one byte. One byte has one order only, so this is
/// [`u8`].
pub fn be_u8() -> Numeral<u8>
    ensures { result.order ≡ Big }
{
    u8()
}

/// Returns the parser of a signed number of one byte. One byte has one order only, so this is
/// [`i8`].
pub fn be_i8() -> Numeral<i8>
    ensures { result.order ≡ Big }
{
    i8()
}

/// Returns the parser of an unsigned number of one byte. One byte has one order only, so this is
/// [`u8`].
pub fn le_u8() -> Numeral<u8>
    ensures { result.order ≡ Big }
{
    u8()
}

/// Returns the parser of a signed number of one byte. One byte has one order only, so this is
/// [`i8`].
pub fn le_i8() -> Numeral<i8>
    ensures { result.order ≡ Big }
{
    i8()
}

/// Returns the parser of an unsigned number of two bytes in this order.
pub fn u16(order: Endianness) -> Numeral<u16>
    ensures { result.order ≡ order }
{
    Numeral::new(order)
}

/// Returns the parser of an unsigned number of four bytes in this order.
pub fn u32(order: Endianness) -> Numeral<u32>
    ensures { result.order ≡ order }
{
    Numeral::new(order)
}

/// Returns the parser of an unsigned number of eight bytes in this order.
pub fn u64(order: Endianness) -> Numeral<u64>
    ensures { result.order ≡ order }
{
    Numeral::new(order)
}

/// Returns the parser of a signed number of two bytes in this order.
pub fn i16(order: Endianness) -> Numeral<i16>
    ensures { result.order ≡ order }
{
    Numeral::new(order)
}

/// Returns the parser of a signed number of four bytes in this order.
pub fn i32(order: Endianness) -> Numeral<i32>
    ensures { result.order ≡ order }
{
    Numeral::new(order)
}

/// Returns the parser of a signed number of eight bytes in this order.
pub fn i64(order: Endianness) -> Numeral<i64>
    ensures { result.order ≡ order }
{
    Numeral::new(order)
}

/// Returns the parser of an unsigned number of two bytes, the most significant first.
pub fn be_u16() -> Numeral<u16>
    ensures { result.order ≡ Big }
{
    Numeral::new(Endianness::Big)
}

/// Returns the parser of an unsigned number of four bytes, the most significant first.
pub fn be_u32() -> Numeral<u32>
    ensures { result.order ≡ Big }
{
    Numeral::new(Endianness::Big)
}

/// Returns the parser of an unsigned number of eight bytes, the most significant first.
pub fn be_u64() -> Numeral<u64>
    ensures { result.order ≡ Big }
{
    Numeral::new(Endianness::Big)
}

/// Returns the parser of a signed number of two bytes, the most significant first.
pub fn be_i16() -> Numeral<i16>
    ensures { result.order ≡ Big }
{
    Numeral::new(Endianness::Big)
}

/// Returns the parser of a signed number of four bytes, the most significant first.
pub fn be_i32() -> Numeral<i32>
    ensures { result.order ≡ Big }
{
    Numeral::new(Endianness::Big)
}

/// Returns the parser of a signed number of eight bytes, the most significant first.
pub fn be_i64() -> Numeral<i64>
    ensures { result.order ≡ Big }
{
    Numeral::new(Endianness::Big)
}

/// Returns the parser of an unsigned number of two bytes, the least significant first.
pub fn le_u16() -> Numeral<u16>
    ensures { result.order ≡ Little }
{
    Numeral::new(Endianness::Little)
}

/// Returns the parser of an unsigned number of four bytes, the least significant first.
pub fn le_u32() -> Numeral<u32>
    ensures { result.order ≡ Little }
{
    Numeral::new(Endianness::Little)
}

/// Returns the parser of an unsigned number of eight bytes, the least significant first.
pub fn le_u64() -> Numeral<u64>
    ensures { result.order ≡ Little }
{
    Numeral::new(Endianness::Little)
}

/// Returns the parser of a signed number of two bytes, the least significant first.
pub fn le_i16() -> Numeral<i16>
    ensures { result.order ≡ Little }
{
    Numeral::new(Endianness::Little)
}

/// Returns the parser of a signed number of four bytes, the least significant first.
pub fn le_i32() -> Numeral<i32>
    ensures { result.order ≡ Little }
{
    Numeral::new(Endianness::Little)
}

/// Returns the parser of a signed number of eight bytes, the least significant first.
pub fn le_i64() -> Numeral<i64>
    ensures { result.order ≡ Little }
{
    Numeral::new(Endianness::Little)
}
