//! Numbers of sixteen bytes: `be_u128`, `be_i128`, `le_u128`, `le_i128`.

ghost use Rattle.std.specs.Prelude.{◌≡◌, ◌↔◌, ◌<◌, ◌^◌, ℕ, IsTrue};
ghost use Rattle.std.specs.Int.{w128, cast_signed};
ghost use Rattle.winnow_codec.specs.Formats.{IsEqual};
ghost use Rattle.winnow_codec.specs.FormatNumbers.{unsigned, SpellsNumber, IsFormat-Number};
ghost use Rattle.winnow_codec.specs.FormatNumbers.{IsOneToOne};
ghost use Rattle.winnow_codec.specs.Signed.{signed-one128};

use crate::{BigEndian, ByteOrder, Exact, Format, LittleEndian, Unwritten};
use std::alloc::Global;
use std::marker::PhantomData;
use winnow_error::ParserError;
use winnow_parser::{Failure, ModalResult};
use winnow_stream::StreamIsPartial;

/// The types whose values sixteen bytes spell: `u128` and `i128`.
pub trait WideNumber: Sized {
    // The value for which a number stands; at `i128` the number is its two's complement.
    ghost value_of: { ℕ → Self };

    /// Returns the value for which a number stands.
    fn from_number(number: u128) -> Self
        requires { number < 256 ^ 16 }
        ensures { result ≡ value_of number };

    /// Returns the number that stands for the value.
    fn to_number(&self) -> u128
        ensures fits { result < 256 ^ 16 }
        ensures value { self.now ≡ value_of result };

    /// Returns whether the values are equal.
    fn equal(left: &Self, right: &Self) -> bool
        ensures { IsTrue result ↔ left.now ≡ right.now };

    // No two numbers stand for one value.
    ghost one_to_one: { IsOneToOne (256 ^ 16) value_of };
}

impl WideNumber for u128 {
    ghost value_of = { unsigned };

    ghost one_to_one = { λ _ _ _ _ e. e };

    fn from_number(number: u128) -> u128 {
        number
    }

    fn to_number(&self) -> u128 {
        *self
    }

    fn equal(left: &u128, right: &u128) -> bool {
        *left == *right
    }
}

impl WideNumber for i128 {
    ghost value_of = { cast_signed w128 };

    ghost one_to_one = { signed-one128 };

    fn from_number(number: u128) -> i128 {
        number.cast_signed()
    }

    fn to_number(&self) -> u128 {
        (*self).cast_unsigned()
    }

    fn equal(left: &i128, right: &i128) -> bool {
        *left == *right
    }
}

/// The format of a number of sixteen bytes in the order `O`; [`be_u128`], [`be_i128`],
/// [`le_u128`] and [`le_i128`] make it.
#[derive_where(Clone, Copy)]
pub struct SixteenBytes<V, O> {
    kind: PhantomData<(V, O)>,
}

impl<V: WideNumber, O: ByteOrder> Format for SixteenBytes<V, O> {
    type Value = V;

    ghost spells = { λ _. SpellsNumber O.order 16 V.value_of };

    ghost same = { IsEqual };

    ghost lawful = { λ _. IsFormat-Number O.order 16 O.ordered.wide_count O.ordered.wide_tells
        V.value_of V.one_to_one };

    fn read<I: StreamIsPartial<Token = u8>, E: ParserError<I>>(
        &self,
        alloc: Global,
        input: &mut I,
    ) -> ModalResult<V, E> {
        match input.offset_at(16) {
            Ok(_) => Ok(V::from_number(O::read_wide(input))),
            Err(needed) if input.is_partial() => Err(Failure::Incomplete(needed)),
            Err(_) => Err(Failure::Backtrack(E::from_input(alloc, input))),
        }
    }

    fn write(&self, value: &V, bytes: &mut Vec<u8>) -> Result<(), Unwritten> {
        match O::write_wide(value.to_number(), bytes) {
            Ok(()) => Ok(()),
            Err(refused) => Err(Unwritten::Refused(refused)),
        }
    }
}

impl<V: WideNumber, O: ByteOrder> Exact for SixteenBytes<V, O> {
    ghost exact = { λ _ _ e. e };

    fn equal(left: &V, right: &V) -> bool {
        V::equal(left, right)
    }
}

/// Returns the format of an unsigned number of sixteen bytes, the most significant first.
///
/// ```
/// let address = be_u128();
/// let bytes = b"\x20\x01\x0d\xb8\0\0\0\0\0\0\0\0\0\0\0\x01";
/// assert_eq!(rt; read_all(alloc, &address, bytes)?, 0x2001_0db8_0000_0000_0000_0000_0000_0001);
/// ```
pub fn be_u128() -> SixteenBytes<u128, BigEndian> {
    SixteenBytes { kind: PhantomData }
}

/// Returns the format of a signed number of sixteen bytes, the most significant first.
pub fn be_i128() -> SixteenBytes<i128, BigEndian> {
    SixteenBytes { kind: PhantomData }
}

/// Returns the format of an unsigned number of sixteen bytes, the least significant first.
pub fn le_u128() -> SixteenBytes<u128, LittleEndian> {
    SixteenBytes { kind: PhantomData }
}

/// Returns the format of a signed number of sixteen bytes, the least significant first.
pub fn le_i128() -> SixteenBytes<i128, LittleEndian> {
    SixteenBytes { kind: PhantomData }
}
