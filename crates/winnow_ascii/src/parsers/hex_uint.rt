//! The parser of a number in hexadecimal digits, `hex_uint`, and its types of numbers, `HexUint`.

ghost use Rattle.std.specs.Prelude.{◌≡◌, ℕ, List};
ghost use Rattle.winnow_count.specs.Reading.{IsSomeExactly};
ghost use Rattle.winnow_parser.specs.Errors.{OwnErrors};
ghost use Rattle.winnow_ascii.specs.HexUint.{ReadsHex, may_be_digits, IsHexUint, ReadsText};
ghost use Rattle.winnow_ascii.specs.HexUint.{IsParser-IsHexUint};

use crate::Class;
use std::alloc::Global;
use std::marker::PhantomData;
use winnow_error::ParserError;
use winnow_parser::{ModalResult, Parser};
use winnow_sets::AsChar;
use winnow_stream::{AsBStr, StreamIsPartial};
use winnow_token::take_while;

/// An unsigned type whose values are read from hexadecimal digits.
pub trait HexUint: Sized {
    // The greatest number of digits that a value has.
    ghost nibbles: { ℕ };

    // The digits write the value.
    ghost reads: { List ℕ → Self → Type 0 };

    /// Returns the greatest number of digits that a value has.
    fn nibbles() -> u8
        ensures { result ≡ nibbles };

    /// Returns the value that the digits write, or `None` where there is none.
    fn read_hex(text: &str) -> Option<Self>
        ensures { IsSomeExactly (reads text.now) result };
}

// Returns whether a text has at most `nibbles` bytes and does not begin with a plus.
fn may_be_digits(text: &str, nibbles: usize) -> bool
    ensures { result ≡ may_be_digits nibbles text.now }
{
    text.len() <= nibbles && !matches!(text.as_bytes(), [b'+', ..])
}

impl HexUint for u8 {
    ghost nibbles = { 2 };

    ghost reads = { ReadsHex 2 };

    fn nibbles() -> u8 {
        2
    }

    #[tactic(auto, using(crate::proofs::Hex::hex_reading, crate::proofs::Hex::hex_none))]
    fn read_hex(text: &str) -> Option<Self> {
        if !may_be_digits(text, 2) {
            return None;
        }
        u8::from_str_radix(text, 16).ok()
    }
}

impl HexUint for u16 {
    ghost nibbles = { 4 };

    ghost reads = { ReadsHex 4 };

    fn nibbles() -> u8 {
        4
    }

    #[tactic(auto, using(crate::proofs::Hex::hex_reading, crate::proofs::Hex::hex_none))]
    fn read_hex(text: &str) -> Option<Self> {
        if !may_be_digits(text, 4) {
            return None;
        }
        u16::from_str_radix(text, 16).ok()
    }
}

impl HexUint for u32 {
    ghost nibbles = { 8 };

    ghost reads = { ReadsHex 8 };

    fn nibbles() -> u8 {
        8
    }

    #[tactic(auto, using(crate::proofs::Hex::hex_reading, crate::proofs::Hex::hex_none))]
    fn read_hex(text: &str) -> Option<Self> {
        if !may_be_digits(text, 8) {
            return None;
        }
        u32::from_str_radix(text, 16).ok()
    }
}

impl HexUint for u64 {
    ghost nibbles = { 16 };

    ghost reads = { ReadsHex 16 };

    fn nibbles() -> u8 {
        16
    }

    #[tactic(auto, using(crate::proofs::Hex::hex_reading, crate::proofs::Hex::hex_none))]
    fn read_hex(text: &str) -> Option<Self> {
        if !may_be_digits(text, 16) {
            return None;
        }
        u64::from_str_radix(text, 16).ok()
    }
}

impl HexUint for u128 {
    ghost nibbles = { 32 };

    ghost reads = { ReadsHex 32 };

    fn nibbles() -> u8 {
        32
    }

    #[tactic(auto, using(crate::proofs::Hex::hex_reading, crate::proofs::Hex::hex_none))]
    fn read_hex(text: &str) -> Option<Self> {
        if !may_be_digits(text, 32) {
            return None;
        }
        u128::from_str_radix(text, 16).ok()
    }
}

impl HexUint for usize {
    ghost nibbles = { 16 };

    ghost reads = { ReadsHex 16 };

    fn nibbles() -> u8 {
        16
    }

    #[tactic(auto, using(crate::proofs::Hex::hex_reading, crate::proofs::Hex::hex_none))]
    fn read_hex(text: &str) -> Option<Self> {
        if !may_be_digits(text, 16) {
            return None;
        }
        usize::from_str_radix(text, 16).ok()
    }
}

// Returns the value that bytes write in hexadecimal digits.
fn read_bytes<R: HexUint>(bytes: &[u8]) -> Option<R>
    ensures { IsSomeExactly (ReadsText R.reads bytes.now) result }
{
    let Ok(text) = str::from_utf8(bytes) else {
        return None;
    };
    R::read_hex(text)
}

/// A parser of a number in hexadecimal digits; [`hex_uint`] makes it.
#[derive_where(Clone, Copy)]
pub struct HexUintOf<R> {
    pub(crate) value: PhantomData<R>,
}

impl<I: StreamIsPartial, E: ParserError<I>, R: HexUint> Parser<I, E> for HexUintOf<R>
where
    I::Token: AsChar,
    I::Slice: AsBStr + Drop,
{
    type Output = R;

    ghost means = { λ _. IsHexUint (λ slice. ReadsText R.reads (I.Slice.text_bytes slice))
        I.is_slice I.Token.code R.nibbles };

    ghost errors = { λ _. OwnErrors E.from_input_gives E.assert_gives };

    ghost ready = { λ _. Unit {0} };

    ghost lawful = { λ _. IsParser-IsHexUint
        (λ slice. ReadsText R.reads (I.Slice.text_bytes slice))
        I.is_slice I.slices_stay I.Token.code R.nibbles };

    fn parse_next(&self, alloc: Global, input: &mut I) -> ModalResult<R, E> {
        // One more digit than a value has is enough to see that there are too many.
        let most = usize::from(R::nibbles()) + 1;
        take_while(1..=most, Class::HexDigit)
            .verify_map(
                |slice: I::Slice| -> Option<R>
                    ensures { IsSomeExactly
                        (ReadsText R.reads (I.Slice.text_bytes slice)) result }
                { read_bytes(slice.as_bstr()) },
            )
            .parse_next(alloc, input)
    }
}
