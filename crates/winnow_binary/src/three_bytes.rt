//! Parsers of numbers of three bytes: `be_u24`, `le_i24` and their like.

ghost use Rattle.std.specs.Prelude.{◌≡◌, ◌<◌, ◌^◌, ℕ};
ghost use Rattle.winnow_parser.specs.Errors.{OwnErrors};
ghost use Rattle.winnow_binary.specs.declared.endianness.Endianness.TheVariants.{Big, Little};
ghost use Rattle.winnow_binary.specs.Numerals.{signed_three, FixedNumeral, IsParser-FixedNumeral};

use crate::Endianness;
use crate::next_number::three;
use std::alloc::Global;
use std::marker::PhantomData;
use winnow_error::ParserError;
use winnow_parser::{Failure, ModalResult, Parser};
use winnow_stream::StreamIsPartial;

/// A type that holds the numbers that three bytes write.
pub trait ThreeByteNumber: Sized {
    // The value for which a number of three bytes stands: at an unsigned type the number itself,
    // and at a signed type the value of which it is the two's complement in three bytes.
    ghost value_of_three: { ℕ → Self };

    /// Returns the value for which a number of three bytes stands.
    fn from_three_bytes(number: u32) -> Self
        requires { number < 256 ^ 3 }
        ensures { result ≡ value_of_three number };
}

impl ThreeByteNumber for u32 {
    ghost value_of_three = { λ n. n };

    fn from_three_bytes(number: u32) -> Self {
        number
    }
}

impl ThreeByteNumber for i32 {
    ghost value_of_three = { signed_three };

    fn from_three_bytes(number: u32) -> Self {
        if number < 8_388_608 {
            number as i32
        } else {
            !((16_777_215 - number) as i32)
        }
    }
}

/// A parser of a number that three bytes write. [`be_u24`] and the functions beside it make it.
#[derive_where(Clone, Copy)]
pub struct ThreeByteNumeral<R> {
    order: Endianness,
    value: PhantomData<R>,
}

impl<R> ThreeByteNumeral<R> {
    // Returns the parser of the number that the next three bytes write in this order.
    fn new(order: Endianness) -> Self
        ensures { result.order ≡ order }
    {
        ThreeByteNumeral {
            order,
            value: PhantomData,
        }
    }
}

impl<I: StreamIsPartial<Token = u8>, E: ParserError<I>, R: ThreeByteNumber> Parser<I, E>
    for ThreeByteNumeral<R> {
    type Output = R;

    ghost means = { λ p. FixedNumeral I.counts_shortage 3 R.value_of_three p.order };

    ghost errors = { λ _. OwnErrors E.from_input_gives E.assert_gives };

    ghost ready = { λ _. Unit {0} };

    ghost lawful = { λ p. IsParser-FixedNumeral I.counts_shortage 3 R.value_of_three p.order };

    #[inline(always)]
    fn parse_next(&self, alloc: Global, input: &mut I) -> ModalResult<R, E> {
        match input.offset_at(3) {
            Ok(_) => Ok(R::from_three_bytes(three(self.order, input))),
            Err(needed) if input.is_partial() => Err(Failure::Incomplete(needed)),
            Err(_) => Err(Failure::Backtrack(E::from_input(alloc, input))),
        }
    }
}

/// Returns the parser of an unsigned number of three bytes in this order.
pub fn u24(order: Endianness) -> ThreeByteNumeral<u32>
    ensures { result.order ≡ order }
{
    ThreeByteNumeral::new(order)
}

/// Returns the parser of a signed number of three bytes in this order.
pub fn i24(order: Endianness) -> ThreeByteNumeral<i32>
    ensures { result.order ≡ order }
{
    ThreeByteNumeral::new(order)
}

/// Returns the parser of an unsigned number of three bytes, the most significant first.
pub fn be_u24() -> ThreeByteNumeral<u32>
    ensures { result.order ≡ Big }
{
    ThreeByteNumeral::new(Endianness::Big)
}

/// Returns the parser of a signed number of three bytes, the most significant first.
pub fn be_i24() -> ThreeByteNumeral<i32>
    ensures { result.order ≡ Big }
{
    ThreeByteNumeral::new(Endianness::Big)
}

/// Returns the parser of an unsigned number of three bytes, the least significant first.
pub fn le_u24() -> ThreeByteNumeral<u32>
    ensures { result.order ≡ Little }
{
    ThreeByteNumeral::new(Endianness::Little)
}

/// Returns the parser of a signed number of three bytes, the least significant first.
pub fn le_i24() -> ThreeByteNumeral<i32>
    ensures { result.order ≡ Little }
{
    ThreeByteNumeral::new(Endianness::Little)
}
