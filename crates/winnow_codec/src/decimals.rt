//! A number in decimal digits that fill a part: `dec_uint`, `dec_count`.

ghost use Rattle.std.specs.Prelude.{◌≡◌, ◌<◌, ◌^◌, ℕ, MatchOption, decimal};
ghost use Rattle.winnow_codec.specs.Decimals.{SpellsDecimal, IsWhole-Decimal};
ghost use Rattle.winnow_codec.specs.Formats.{IsEqual};

use crate::{Exact, Frame, Inside, Unread, Unwritten, Whole};
use itoa::Buffer;
use std::alloc::Global;

/// The format of a number in decimal digits that fill a part; [`dec_uint`] makes it.
#[derive(Clone, Copy)]
pub struct DecimalDigits;

/// Returns the format of a number below 2^64 in decimal digits that fill a part, with no sign and
/// no leading zeros: `till(b"\r\n", dec_uint())` is a number to the end of its line. Digits alone do
/// not tell where a number ends, so they fill a part.
///
/// ```
/// let length = known_then(literal(b"$"), till(b"\r\n", dec_uint()));
/// assert_eq!(rt; read_all(alloc, &length, b"$512\r\n")?, 512);
/// ```
pub fn dec_uint() -> DecimalDigits {
    DecimalDigits
}

// Returns the number whose decimal digits these are.
fn number_in(digits: &[u8]) -> Option<u64>
    ensures { MatchOption result
        ((n : ℕ) → n < 2 ^ 64 → digits.now ≡ decimal n → ⊥)
        (λ n. (n < 2 ^ 64) × (digits.now ≡ decimal n)) }
{
    let text = match str::from_utf8(digits) {
        Ok(text) => text,
        Err(_) => return None,
    };
    match text.parse::<u64>() {
        Ok(number) => {
            // `parse` admits a sign and leading zeros, which are not spelled.
            if Buffer::new().format(number).as_bytes() == digits {
                Some(number)
            } else {
                None
            }
        }
        Err(_) => None,
    }
}

impl Whole for DecimalDigits {
    type Value = u64;

    ghost spells = { λ _. SpellsDecimal };

    ghost same = { IsEqual };

    ghost lawful = { λ _. IsWhole-Decimal };

    fn read_whole(&self, _alloc: Global, part: &[u8]) -> Result<u64, Unread> {
        match number_in(part) {
            Some(number) => Ok(number),
            None => Err(Unread::Malformed),
        }
    }

    fn write(&self, value: &u64, bytes: &mut Vec<u8>) -> Result<(), Unwritten> {
        let mut buffer = Buffer::new();
        match bytes.extend_from_slice(buffer.format(*value).as_bytes()) {
            Ok(()) => Ok(()),
            Err(refused) => Err(Unwritten::Refused(refused)),
        }
    }
}

/// The format of a count in decimal digits that fill a part; [`dec_count`] makes it.
#[derive(Clone, Copy)]
pub struct DecimalCount;

/// Returns the format of a count in decimal digits that fill a part, with no sign and no leading
/// zeros: `bytes_after(till(b":", dec_count()))` is the bytes of a netstring after their number.
///
/// ```
/// let string = (bytes_after(till(b":", dec_count())), literal(b","));
/// let (bytes, ()) = read_all(alloc, &string, b"5:hello,")?;
/// assert_eq!(rt; bytes.as_slice(), b"hello".as_slice());
/// ```
pub fn dec_count() -> DecimalCount {
    DecimalCount
}

impl Whole for DecimalCount {
    type Value = usize;

    ghost spells = { λ _. SpellsDecimal };

    ghost same = { IsEqual };

    ghost lawful = { λ _. IsWhole-Decimal };

    fn read_whole(&self, _alloc: Global, part: &[u8]) -> Result<usize, Unread> {
        match number_in(part) {
            Some(number) => Ok(number as usize),
            None => Err(Unread::Malformed),
        }
    }

    fn write(&self, value: &usize, bytes: &mut Vec<u8>) -> Result<(), Unwritten> {
        DecimalDigits.write(&(*value as u64), bytes)
    }
}

impl<F: Frame> Exact for Inside<F, DecimalCount> {
    ghost exact = { λ _ _ e. e };

    fn equal(left: &usize, right: &usize) -> bool {
        *left == *right
    }
}
