//! The numbers that a fixed number of bytes spells: `FixedWidth`.

ghost use Rattle.std.specs.Prelude.{◌≡◌, ◌↔◌, ◌<◌, ◌^◌, ℕ, IsTrue, MatchOption};
ghost use Rattle.std.specs.Int.{w8, w16, w32, w64, cast_signed};
ghost use Rattle.winnow_codec.specs.declared.widths.Width.{Width};
ghost use Rattle.winnow_codec.specs.declared.widths.Width.TheVariants.{One, Two};
ghost use Rattle.winnow_codec.specs.declared.widths.Width.TheVariants.{Three, Four, Eight};
ghost use Rattle.winnow_codec.specs.FormatNumbers.{bytes_in, unsigned, IsOneToOne};
ghost use Rattle.winnow_codec.specs.Signed.{signed-one8, signed-one16, signed-one32, signed-one64};
ghost use Rattle.winnow_codec.specs.Signed.{signed_three, signed-one24};

use std::marker::PhantomData;

/// How many bytes a number has.
#[derive(Clone, Copy, Debug, PartialEq, Eq)]
pub enum Width {
    /// One byte
    One,
    /// Two bytes
    Two,
    /// Three bytes
    Three,
    /// Four bytes
    Four,
    /// Eight bytes
    Eight,
}

impl Width {
    /// Returns the number of bytes.
    pub fn bytes(self) -> usize
        ensures { result ≡ bytes_in self }
    {
        match self {
            Width::One => 1,
            Width::Two => 2,
            Width::Three => 3,
            Width::Four => 4,
            Width::Eight => 8,
        }
    }
}

/// Which values a fixed number of bytes spells: the integer types themselves, [`U24`], and
/// [`Count`] of an unsigned one. Each number below the limit stands for a value.
pub trait FixedWidth: Sized {
    /// The type of the values.
    type Value;

    // The number of bytes.
    ghost width: { Width };

    // The value for which a number stands: at a signed type that of which it is the two's
    // complement, at any other the number itself.
    ghost value_of: { ℕ → Self.Value };

    /// Returns the number of bytes.
    fn width() -> Width
        ensures { result ≡ width };

    /// Returns the value for which a number stands.
    fn from_number(number: u64) -> Self::Value
        requires { number < 256 ^ bytes_in width }
        ensures { result ≡ value_of number };

    /// Returns the number that stands for the value, or `None` if the value is too large for so
    /// many bytes.
    fn to_number(value: &Self::Value) -> Option<u64>
        ensures { MatchOption result
            ((number : ℕ) → number < 256 ^ bytes_in width → value.now ≡ value_of number → ⊥)
            (λ number. (number < 256 ^ bytes_in width) × (value.now ≡ value_of number)) };

    /// Returns whether the values are equal.
    fn equal(left: &Self::Value, right: &Self::Value) -> bool
        ensures { IsTrue result ↔ left.now ≡ right.now };

    // No two numbers stand for one value.
    ghost one_to_one: { IsOneToOne (256 ^ bytes_in width) value_of };
}

impl FixedWidth for u8 {
    type Value = u8;

    ghost width = { One };

    ghost value_of = { unsigned };

    ghost one_to_one = { λ _ _ _ _ e. e };

    fn width() -> Width {
        Width::One
    }

    fn from_number(number: u64) -> u8 {
        number as u8
    }

    fn to_number(value: &u8) -> Option<u64> {
        Some(u64::from(*value))
    }

    fn equal(left: &u8, right: &u8) -> bool {
        *left == *right
    }
}

impl FixedWidth for u16 {
    type Value = u16;

    ghost width = { Two };

    ghost value_of = { unsigned };

    ghost one_to_one = { λ _ _ _ _ e. e };

    fn width() -> Width {
        Width::Two
    }

    fn from_number(number: u64) -> u16 {
        number as u16
    }

    fn to_number(value: &u16) -> Option<u64> {
        Some(u64::from(*value))
    }

    fn equal(left: &u16, right: &u16) -> bool {
        *left == *right
    }
}

impl FixedWidth for u32 {
    type Value = u32;

    ghost width = { Four };

    ghost value_of = { unsigned };

    ghost one_to_one = { λ _ _ _ _ e. e };

    fn width() -> Width {
        Width::Four
    }

    fn from_number(number: u64) -> u32 {
        number as u32
    }

    fn to_number(value: &u32) -> Option<u64> {
        Some(u64::from(*value))
    }

    fn equal(left: &u32, right: &u32) -> bool {
        *left == *right
    }
}

impl FixedWidth for u64 {
    type Value = u64;

    ghost width = { Eight };

    ghost value_of = { unsigned };

    ghost one_to_one = { λ _ _ _ _ e. e };

    fn width() -> Width {
        Width::Eight
    }

    fn from_number(number: u64) -> u64 {
        number
    }

    fn to_number(value: &u64) -> Option<u64> {
        Some(*value)
    }

    fn equal(left: &u64, right: &u64) -> bool {
        *left == *right
    }
}

impl FixedWidth for i8 {
    type Value = i8;

    ghost width = { One };

    ghost value_of = { cast_signed w8 };

    ghost one_to_one = { signed-one8 };

    fn width() -> Width {
        Width::One
    }

    fn from_number(number: u64) -> i8 {
        (number as u8).cast_signed()
    }

    fn to_number(value: &i8) -> Option<u64> {
        Some(u64::from((*value).cast_unsigned()))
    }

    fn equal(left: &i8, right: &i8) -> bool {
        *left == *right
    }
}

impl FixedWidth for i16 {
    type Value = i16;

    ghost width = { Two };

    ghost value_of = { cast_signed w16 };

    ghost one_to_one = { signed-one16 };

    fn width() -> Width {
        Width::Two
    }

    fn from_number(number: u64) -> i16 {
        (number as u16).cast_signed()
    }

    fn to_number(value: &i16) -> Option<u64> {
        Some(u64::from((*value).cast_unsigned()))
    }

    fn equal(left: &i16, right: &i16) -> bool {
        *left == *right
    }
}

impl FixedWidth for i32 {
    type Value = i32;

    ghost width = { Four };

    ghost value_of = { cast_signed w32 };

    ghost one_to_one = { signed-one32 };

    fn width() -> Width {
        Width::Four
    }

    fn from_number(number: u64) -> i32 {
        (number as u32).cast_signed()
    }

    fn to_number(value: &i32) -> Option<u64> {
        Some(u64::from((*value).cast_unsigned()))
    }

    fn equal(left: &i32, right: &i32) -> bool {
        *left == *right
    }
}

impl FixedWidth for i64 {
    type Value = i64;

    ghost width = { Eight };

    ghost value_of = { cast_signed w64 };

    ghost one_to_one = { signed-one64 };

    fn width() -> Width {
        Width::Eight
    }

    fn from_number(number: u64) -> i64 {
        number.cast_signed()
    }

    fn to_number(value: &i64) -> Option<u64> {
        Some((*value).cast_unsigned())
    }

    fn equal(left: &i64, right: &i64) -> bool {
        *left == *right
    }
}

/// The numbers of three bytes, as values of `u32`. A value of 2^24 or more is not spelled.
#[derive(Clone, Copy)]
pub struct U24;

impl FixedWidth for U24 {
    type Value = u32;

    ghost width = { Three };

    ghost value_of = { unsigned };

    ghost one_to_one = { λ _ _ _ _ e. e };

    fn width() -> Width {
        Width::Three
    }

    fn from_number(number: u64) -> u32 {
        number as u32
    }

    fn to_number(value: &u32) -> Option<u64> {
        if *value < 16_777_216 {
            Some(u64::from(*value))
        } else {
            None
        }
    }

    fn equal(left: &u32, right: &u32) -> bool {
        *left == *right
    }
}

/// The signed numbers of three bytes, as values of `i32`. A value below -2^23, or of 2^23 or more,
/// is not spelled.
#[derive(Clone, Copy)]
pub struct I24;

impl FixedWidth for I24 {
    type Value = i32;

    ghost width = { Three };

    ghost value_of = { signed_three };

    ghost one_to_one = { signed-one24 };

    fn width() -> Width {
        Width::Three
    }

    fn from_number(number: u64) -> i32 {
        // The sign of the third byte goes to the fourth.
        let extended = if number < 8_388_608 {
            number as u32
        } else {
            number as u32 + 4_278_190_080
        };
        extended.cast_signed()
    }

    fn to_number(value: &i32) -> Option<u64> {
        let extended = (*value).cast_unsigned();
        if extended < 8_388_608 {
            Some(u64::from(extended))
        } else if extended < 4_286_578_688 {
            None
        } else {
            Some(u64::from(extended - 4_278_190_080))
        }
    }

    fn equal(left: &i32, right: &i32) -> bool {
        *left == *right
    }
}

/// The unsigned types of [`FixedWidth`], whose values may count.
pub trait Unsigned: FixedWidth {}

impl Unsigned for u8 {}

impl Unsigned for u16 {}

impl Unsigned for U24 {}

impl Unsigned for u32 {}

impl Unsigned for u64 {}

/// The values of an unsigned type as counts. A count that is too large for so many bytes is not
/// spelled.
#[derive_where(Clone, Copy)]
pub struct Count<W> {
    width: PhantomData<W>,
}

impl<W: Unsigned> FixedWidth for Count<W> {
    type Value = usize;

    ghost width = { W.width };

    ghost value_of = { unsigned };

    ghost one_to_one = { λ _ _ _ _ e. e };

    fn width() -> Width {
        W::width()
    }

    fn from_number(number: u64) -> usize {
        number as usize
    }

    fn to_number(value: &usize) -> Option<u64> {
        let number = *value as u64;
        let fits = match W::width() {
            Width::One => number < 256,
            Width::Two => number < 65536,
            Width::Three => number < 16_777_216,
            Width::Four => number < 4_294_967_296,
            Width::Eight => true,
        };
        if fits { Some(number) } else { None }
    }

    fn equal(left: &usize, right: &usize) -> bool {
        *left == *right
    }
}
