//! Parsers of numbers of sixteen bytes: `be_u128`, `le_i128` and their like.

ghost use Rattle.std.specs.Prelude.{◌≡◌, ◌<◌, ◌^◌, ℕ};
ghost use Rattle.std.specs.Int.{w128, cast_signed};
ghost use Rattle.winnow_parser.specs.Errors.{OwnErrors};
ghost use Rattle.winnow_binary.specs.declared.endianness.Endianness.TheVariants.{Big, Little};
ghost use Rattle.winnow_binary.specs.Numerals.{FixedNumeral, IsParser-FixedNumeral};

use crate::Endianness;
use crate::next_number::sixteen;
use std::alloc::Global;
use std::marker::PhantomData;
use winnow_error::ParserError;
use winnow_parser::{Failure, ModalResult, Parser};
use winnow_stream::StreamIsPartial;

/// A type that holds the numbers that sixteen bytes write.
pub trait SixteenByteNumber: Sized {
    // The value for which a number of sixteen bytes stands: at an unsigned type the number itself,
    // and at a signed type the value of which it is the two's complement.
    ghost value_of_sixteen: { ℕ → Self };

    /// Returns the value for which a number of sixteen bytes stands.
    fn from_sixteen_bytes(number: u128) -> Self
        requires { number < 256 ^ 16 }
        ensures { result ≡ value_of_sixteen number };
}

impl SixteenByteNumber for u128 {
    ghost value_of_sixteen = { λ n. n };

    fn from_sixteen_bytes(number: u128) -> Self {
        number
    }
}

impl SixteenByteNumber for i128 {
    ghost value_of_sixteen = { λ n. cast_signed w128 n };

    fn from_sixteen_bytes(number: u128) -> Self {
        number.cast_signed()
    }
}

/// A parser of a number that sixteen bytes write. [`be_u128`] and the functions beside it make it.
#[derive_where(Clone, Copy)]
pub struct SixteenByteNumeral<R> {
    order: Endianness,
    value: PhantomData<R>,
}

impl<R> SixteenByteNumeral<R> {
    // Returns the parser of the number that the next sixteen bytes write in this order.
    fn new(order: Endianness) -> Self
        ensures { result.order ≡ order }
    {
        SixteenByteNumeral {
            order,
            value: PhantomData,
        }
    }
}

impl<I: StreamIsPartial<Token = u8>, E: ParserError<I>, R: SixteenByteNumber> Parser<I, E>
    for SixteenByteNumeral<R> {
    type Output = R;

    ghost means = { λ p. FixedNumeral I.counts_shortage 16 R.value_of_sixteen p.order };

    ghost errors = { λ _. OwnErrors E.from_input_gives E.assert_gives };

    ghost ready = { λ _. Unit {0} };

    ghost lawful = { λ p. IsParser-FixedNumeral I.counts_shortage 16 R.value_of_sixteen p.order };

    #[inline(always)]
    fn parse_next(&self, alloc: Global, input: &mut I) -> ModalResult<R, E> {
        match input.offset_at(16) {
            Ok(_) => Ok(R::from_sixteen_bytes(sixteen(self.order, input))),
            Err(needed) if input.is_partial() => Err(Failure::Incomplete(needed)),
            Err(_) => Err(Failure::Backtrack(E::from_input(alloc, input))),
        }
    }
}

/// Returns the parser of an unsigned number of sixteen bytes in this order.
pub fn u128(order: Endianness) -> SixteenByteNumeral<u128>
    ensures { result.order ≡ order }
{
    SixteenByteNumeral::new(order)
}

/// Returns the parser of a signed number of sixteen bytes in this order.
pub fn i128(order: Endianness) -> SixteenByteNumeral<i128>
    ensures { result.order ≡ order }
{
    SixteenByteNumeral::new(order)
}

/// Returns the parser of an unsigned number of sixteen bytes, the most significant first.
pub fn be_u128() -> SixteenByteNumeral<u128>
    ensures { result.order ≡ Big }
{
    SixteenByteNumeral::new(Endianness::Big)
}

/// Returns the parser of a signed number of sixteen bytes, the most significant first.
pub fn be_i128() -> SixteenByteNumeral<i128>
    ensures { result.order ≡ Big }
{
    SixteenByteNumeral::new(Endianness::Big)
}

/// Returns the parser of an unsigned number of sixteen bytes, the least significant first.
pub fn le_u128() -> SixteenByteNumeral<u128>
    ensures { result.order ≡ Little }
{
    SixteenByteNumeral::new(Endianness::Little)
}

/// Returns the parser of a signed number of sixteen bytes, the least significant first.
pub fn le_i128() -> SixteenByteNumeral<i128>
    ensures { result.order ≡ Little }
{
    SixteenByteNumeral::new(Endianness::Little)
}
