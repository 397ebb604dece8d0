//! An integer in decimal digits that fill a part: `dec_int`.

ghost use Rattle.std.specs.Prelude.{◌≡◌, ℤ, MatchOption, FitsSigned};
ghost use Rattle.std.specs.Int.{w64};
ghost use Rattle.std.specs.Fmt.{signed_decimal};
ghost use Rattle.winnow_codec.specs.Formats.{IsEqual};
ghost use Rattle.winnow_codec.specs.SignedDecimals.{SpellsInteger, IsWhole-Integer};

use crate::{Unread, Unwritten, Whole};
use itoa::Buffer;
use std::alloc::Global;

/// The format of an integer in decimal digits that fill a part; [`dec_int`] makes it.
#[derive(Clone, Copy)]
pub struct DecimalInteger;

/// Returns the format of an integer of 64 bits in decimal digits that fill a part, after a minus
/// below 0, with no plus and no 0 before other digits: `till(b"\r\n", dec_int())` is an integer to
/// the end of its line.
///
/// ```
/// let integer = known_then(literal(b":"), till(b"\r\n", dec_int()));
/// assert_eq!(rt; read_all(alloc, &integer, b":-512\r\n")?, -512);
/// ```
pub fn dec_int() -> DecimalInteger {
    DecimalInteger
}

// Returns the integer that is written so.
fn integer_in(digits: &[u8]) -> Option<i64>
    ensures { MatchOption result
        ((n : ℤ) → FitsSigned w64 n → digits.now ≡ signed_decimal n → ⊥)
        (λ n. FitsSigned w64 n × (digits.now ≡ signed_decimal n)) }
{
    let text = match str::from_utf8(digits) {
        Ok(text) => text,
        Err(_) => return None,
    };
    match text.parse::<i64>() {
        Ok(number) => {
            // `parse` admits a plus, leading zeros and -0, which are not spelled.
            if Buffer::new().format(number).as_bytes() == digits {
                Some(number)
            } else {
                None
            }
        }
        Err(_) => None,
    }
}

impl Whole for DecimalInteger {
    type Value = i64;

    ghost spells = { λ _. SpellsInteger };

    ghost same = { IsEqual };

    ghost lawful = { λ _. IsWhole-Integer };

    fn read_whole(&self, _alloc: Global, part: &[u8]) -> Result<i64, Unread> {
        match integer_in(part) {
            Some(number) => Ok(number),
            None => Err(Unread::Malformed),
        }
    }

    fn write(&self, value: &i64, bytes: &mut Vec<u8>) -> Result<(), Unwritten> {
        let mut buffer = Buffer::new();
        match bytes.extend_from_slice(buffer.format(*value).as_bytes()) {
            Ok(()) => Ok(()),
            Err(refused) => Err(Unwritten::Refused(refused)),
        }
    }
}
