//! Parsers of floats: `be_f32`, `le_f64` and their like.

ghost use Rattle.std.specs.Prelude.{◌≡◌, from_bits};
ghost use Rattle.std.specs.Float.{binary32, binary64};
ghost use Rattle.winnow_binary.specs.declared.endianness.Endianness.TheVariants.{Big, Little};
ghost use Rattle.winnow_binary.specs.declared.endianness.Width.TheVariants.{Four, Eight};

use crate::{BinaryNumber, Endianness, Numeral, Width};
use std::num::{f32_from_bits_with_nan, f64_from_bits_with_nan};

impl BinaryNumber for f32 {
    ghost width = { Four };

    ghost value_of = { λ n. from_bits binary32 n };

    fn width() -> Width {
        Width::Four
    }

    fn from_number(number: u64) -> Self {
        f32_from_bits_with_nan(number as u32)
    }
}

impl BinaryNumber for f64 {
    ghost width = { Eight };

    ghost value_of = { λ n. from_bits binary64 n };

    fn width() -> Width {
        Width::Eight
    }

    fn from_number(number: u64) -> Self {
        f64_from_bits_with_nan(number)
    }
}

/// Returns the parser of the float whose bits are the next four bytes in this order. Where they are
/// the bits of a NaN, it returns some NaN, whose sign and payload may be others.
pub fn f32(order: Endianness) -> Numeral<f32>
    ensures { result.order ≡ order }
{
    Numeral::new(order)
}

/// Returns the parser of the float whose bits are the next eight bytes in this order. Where they
/// are the bits of a NaN, it returns some NaN, whose sign and payload may be others.
pub fn f64(order: Endianness) -> Numeral<f64>
    ensures { result.order ≡ order }
{
    Numeral::new(order)
}

/// Returns the parser of a float of four bytes, the most significant first. Of a NaN, see [`f32`].
pub fn be_f32() -> Numeral<f32>
    ensures { result.order ≡ Big }
{
    Numeral::new(Endianness::Big)
}

/// Returns the parser of a float of eight bytes, the most significant first. Of a NaN, see [`f64`].
pub fn be_f64() -> Numeral<f64>
    ensures { result.order ≡ Big }
{
    Numeral::new(Endianness::Big)
}

/// Returns the parser of a float of four bytes, the least significant first. Of a NaN, see [`f32`].
pub fn le_f32() -> Numeral<f32>
    ensures { result.order ≡ Little }
{
    Numeral::new(Endianness::Little)
}

/// Returns the parser of a float of eight bytes, the least significant first. Of a NaN, see
/// [`f64`].
pub fn le_f64() -> Numeral<f64>
    ensures { result.order ≡ Little }
{
    Numeral::new(Endianness::Little)
}
