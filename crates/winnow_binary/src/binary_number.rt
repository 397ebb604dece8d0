//! The types of numbers that a fixed number of bytes writes: `BinaryNumber`.

ghost use Rattle.std.specs.Prelude.{◌≡◌, ◌<◌, ◌^◌, ℕ};
ghost use Rattle.std.specs.Int.{w8, w16, w32, w64, cast_signed};
ghost use Rattle.winnow_binary.specs.declared.endianness.Width.{Width};
ghost use Rattle.winnow_binary.specs.declared.endianness.Width.TheVariants.{One, Two, Four, Eight};
ghost use Rattle.winnow_binary.specs.Numerals.{bytes_in};

use crate::Width;

/// A type of numbers that a fixed number of bytes writes.
pub trait BinaryNumber: Sized {
    // The number of bytes.
    ghost width: { Width };

    // The value for which a number stands: at an unsigned type the number itself, at a signed type
    // the value of which it is the two's complement, and at a float type the float of its bits.
    ghost value_of: { ℕ → Self };

    /// Returns the number of bytes.
    fn width() -> Width
        ensures { result ≡ width };

    /// Returns the value for which a number stands.
    fn from_number(number: u64) -> Self
        requires { number < 256 ^ bytes_in width }
        ensures { result ≡ value_of number };
}

impl BinaryNumber for u8 {
    ghost width = { One };

    ghost value_of = { λ n. n };

    fn width() -> Width {
        Width::One
    }

    fn from_number(number: u64) -> Self {
        number as u8
    }
}

impl BinaryNumber for u16 {
    ghost width = { Two };

    ghost value_of = { λ n. n };

    fn width() -> Width {
        Width::Two
    }

    fn from_number(number: u64) -> Self {
        number as u16
    }
}

impl BinaryNumber for u32 {
    ghost width = { Four };

    ghost value_of = { λ n. n };

    fn width() -> Width {
        Width::Four
    }

    fn from_number(number: u64) -> Self {
        number as u32
    }
}

impl BinaryNumber for u64 {
    ghost width = { Eight };

    ghost value_of = { λ n. n };

    fn width() -> Width {
        Width::Eight
    }

    fn from_number(number: u64) -> Self {
        number
    }
}

impl BinaryNumber for i8 {
    ghost width = { One };

    ghost value_of = { λ n. cast_signed w8 n };

    fn width() -> Width {
        Width::One
    }

    fn from_number(number: u64) -> Self {
        (number as u8).cast_signed()
    }
}

impl BinaryNumber for i16 {
    ghost width = { Two };

    ghost value_of = { λ n. cast_signed w16 n };

    fn width() -> Width {
        Width::Two
    }

    fn from_number(number: u64) -> Self {
        (number as u16).cast_signed()
    }
}

impl BinaryNumber for i32 {
    ghost width = { Four };

    ghost value_of = { λ n. cast_signed w32 n };

    fn width() -> Width {
        Width::Four
    }

    fn from_number(number: u64) -> Self {
        (number as u32).cast_signed()
    }
}

impl BinaryNumber for i64 {
    ghost width = { Eight };

    ghost value_of = { λ n. cast_signed w64 n };

    fn width() -> Width {
        Width::Eight
    }

    fn from_number(number: u64) -> Self {
        number.cast_signed()
    }
}
