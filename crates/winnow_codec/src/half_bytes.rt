//! The two halves of a byte: `nibbles`.

ghost use Rattle.winnow_codec.specs.Formats.{IsEqual};
ghost use Rattle.winnow_codec.specs.Nibbles.{SpellsNibbles, IsFormat-Nibbles};

use crate::one_byte::OneByte;
use crate::{Exact, Format, Unwritten};
use std::alloc::Global;
use winnow_error::ParserError;
use winnow_parser::ModalResult;
use winnow_stream::StreamIsPartial;

/// The format of the two halves of a byte; [`nibbles`] makes it.
#[derive(Clone, Copy, Drop)]
pub struct HalfBytes;

/// Returns the format of the upper and the lower four bits of a byte, as the version and the length
/// of an IPv4 header (RFC 791, section 3.1). A value of 16 or more has no spelling. A type with an
/// `impl` of [`Coded`](crate::Coded) has other fields of bits.
///
/// ```
/// assert_eq!(rt; read_all(alloc, &nibbles(), b"\x45")?, (4, 5));
/// ```
pub fn nibbles() -> HalfBytes {
    HalfBytes
}

impl Format for HalfBytes {
    type Value = (u8, u8);

    ghost spells = { λ _. SpellsNibbles };

    ghost same = { IsEqual };

    ghost lawful = { λ _. IsFormat-Nibbles };

    fn read<I: StreamIsPartial<Token = u8>, E: ParserError<I>>(
        &self,
        alloc: Global,
        input: &mut I,
    ) -> ModalResult<(u8, u8), E> {
        match OneByte.read(alloc, input) {
            Ok(byte) => Ok((byte / 16, byte % 16)),
            Err(failure) => Err(failure),
        }
    }

    fn write(&self, value: &(u8, u8), bytes: &mut Vec<u8>) -> Result<(), Unwritten> {
        let (upper, lower) = *value;
        if upper < 16 && lower < 16 {
            OneByte.write(&(upper * 16 + lower), bytes)
        } else {
            Err(Unwritten::Unspelled)
        }
    }
}

impl Exact for HalfBytes {
    ghost exact = { λ _ _ e. e };

    fn equal(left: &(u8, u8), right: &(u8, u8)) -> bool {
        left.0 == right.0 && left.1 == right.1
    }
}
