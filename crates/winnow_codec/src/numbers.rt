//! The format of a number of a fixed number of bytes.

ghost use Rattle.winnow_codec.specs.Formats.{IsEqual};
ghost use Rattle.winnow_codec.specs.FormatNumbers.{bytes_in, SpellsNumber, IsFormat-Number};

use crate::{
    BigEndian, ByteOrder, Count, Exact, FixedWidth, Format, I24, LittleEndian, U24, Unsigned,
    Unwritten,
};
use std::alloc::Global;
use std::marker::PhantomData;
use winnow_error::ParserError;
use winnow_parser::{Failure, ModalResult};
use winnow_stream::StreamIsPartial;

/// The format of a number of the width of `W` in the order `O`. [`be_u16`] and the functions beside
/// it make it.
#[derive_where(Clone, Copy)]
pub struct Number<W, O> {
    kind: PhantomData<(W, O)>,
}

impl<W, O> Number<W, O> {
    // Returns the format of a number.
    fn new() -> Self {
        Number { kind: PhantomData }
    }
}

/// A number whose most significant byte comes first.
pub type Be<W> = Number<W, BigEndian>;

/// A number whose least significant byte comes first.
pub type Le<W> = Number<W, LittleEndian>;

impl<W: FixedWidth, O: ByteOrder> Format for Number<W, O> {
    type Value = W::Value;

    ghost spells = { λ _. SpellsNumber O.order (bytes_in W.width) W.value_of };

    ghost same = { IsEqual };

    ghost lawful = { λ _. IsFormat-Number O.order (bytes_in W.width)
        (O.ordered.count W.width) (O.ordered.tells W.width) W.value_of W.one_to_one };

    #[inline(always)]
    fn read<I: StreamIsPartial<Token = u8>, E: ParserError<I>>(
        &self,
        alloc: Global,
        input: &mut I,
    ) -> ModalResult<W::Value, E> {
        let width = W::width();
        match input.offset_at(width.bytes()) {
            Ok(_) => Ok(W::from_number(O::read_number(width, input))),
            Err(needed) if input.is_partial() => Err(Failure::Incomplete(needed)),
            Err(_) => Err(Failure::Backtrack(E::from_input(alloc, input))),
        }
    }

    #[inline(always)]
    fn write(&self, value: &W::Value, bytes: &mut Vec<u8>) -> Result<(), Unwritten> {
        match W::to_number(value) {
            Some(number) => match O::write_number(W::width(), number, bytes) {
                Ok(()) => Ok(()),
                Err(refused) => Err(Unwritten::Refused(refused)),
            },
            None => Err(Unwritten::Unspelled),
        }
    }
}

impl<W: FixedWidth, O: ByteOrder> Exact for Number<W, O> {
    ghost exact = { λ _ _ e. e };

    fn equal(left: &W::Value, right: &W::Value) -> bool {
        W::equal(left, right)
    }
}

/// Returns the format of a number as a count of what follows. A count that is too large for the
/// number has no spelling.
pub fn count_of<W: Unsigned, O>(number: Number<W, O>) -> Number<Count<W>, O> {
    let _ = number;
    Number::new()
}

/// Returns the format of an unsigned number of one byte, as [`byte`](crate::byte) is.
pub fn u8() -> Be<u8> {
    Number::new()
}

/// Returns the format of a signed number of one byte.
pub fn i8() -> Be<i8> {
    Number::new()
}

/// Returns the format of an unsigned number of two bytes, the most significant first.
pub fn be_u16() -> Be<u16> {
    Number::new()
}

/// Returns the format of an unsigned number of three bytes, the most significant first.
pub fn be_u24() -> Be<U24> {
    Number::new()
}

/// Returns the format of an unsigned number of four bytes, the most significant first.
pub fn be_u32() -> Be<u32> {
    Number::new()
}

/// Returns the format of an unsigned number of eight bytes, the most significant first.
pub fn be_u64() -> Be<u64> {
    Number::new()
}

/// Returns the format of a signed number of two bytes, the most significant first.
pub fn be_i16() -> Be<i16> {
    Number::new()
}

/// Returns the format of a signed number of three bytes, the most significant first.
///
/// ```
/// assert_eq!(rt; read_all(alloc, &be_i24(), b"\xff\xff\xfe")?, -2);
/// ```
pub fn be_i24() -> Be<I24> {
    Number::new()
}

/// Returns the format of a signed number of four bytes, the most significant first.
pub fn be_i32() -> Be<i32> {
    Number::new()
}

/// Returns the format of a signed number of eight bytes, the most significant first.
pub fn be_i64() -> Be<i64> {
    Number::new()
}

/// Returns the format of an unsigned number of two bytes, the least significant first.
pub fn le_u16() -> Le<u16> {
    Number::new()
}

/// Returns the format of an unsigned number of three bytes, the least significant first.
pub fn le_u24() -> Le<U24> {
    Number::new()
}

/// Returns the format of an unsigned number of four bytes, the least significant first.
pub fn le_u32() -> Le<u32> {
    Number::new()
}

/// Returns the format of an unsigned number of eight bytes, the least significant first.
pub fn le_u64() -> Le<u64> {
    Number::new()
}

/// Returns the format of a signed number of two bytes, the least significant first.
pub fn le_i16() -> Le<i16> {
    Number::new()
}

/// Returns the format of a signed number of three bytes, the least significant first.
pub fn le_i24() -> Le<I24> {
    Number::new()
}

/// Returns the format of a signed number of four bytes, the least significant first.
pub fn le_i32() -> Le<i32> {
    Number::new()
}

/// Returns the format of a signed number of eight bytes, the least significant first.
pub fn le_i64() -> Le<i64> {
    Number::new()
}
