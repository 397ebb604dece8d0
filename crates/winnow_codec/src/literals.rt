//! Bytes that are known: `literal`, `padding`.

ghost use Rattle.std.specs.Prelude.{◌≡◌, replicate};
ghost use Rattle.winnow_codec.specs.Known.{IsNothing};
ghost use Rattle.winnow_codec.specs.Literals.{SpellsLiteral, IsFormat-Literal};

use crate::one_byte::OneByte;
use crate::{Format, Only, Unwritten, exactly};
use std::alloc::Global;
use winnow_error::ParserError;
use winnow_parser::ModalResult;
use winnow_stream::StreamIsPartial;

/// The format of bytes that are known; [`literal`] makes it.
#[derive(Clone, Copy, Drop)]
pub struct LiteralBytes {
    bytes: &'static [u8],
}

/// Returns the format of these bytes alone, as a magic number or a keyword. Its value is `()`,
/// since the bytes are known. Reading backtracks at the first other byte, so it needs more only if
/// all bytes so far are those of the literal.
///
/// ```
/// let header = known_then(literal(b"GIF89a"), le_u16());
/// assert_eq!(rt; read_all(alloc, &header, b"GIF89a\x01\x02")?, 0x0201);
/// ```
pub fn literal(bytes: &'static [u8]) -> LiteralBytes
    ensures { result.bytes.now ≡ bytes.now }
{
    LiteralBytes { bytes }
}

impl Format for LiteralBytes {
    type Value = ();

    ghost spells = { λ f. SpellsLiteral f.bytes.now };

    ghost same = { IsNothing };

    ghost lawful = { λ f. IsFormat-Literal f.bytes.now };

    fn read<I: StreamIsPartial<Token = u8>, E: ParserError<I>>(
        &self,
        alloc: Global,
        input: &mut I,
    ) -> ModalResult<(), E> {
        for place in 0..self.bytes.len() {
            match exactly(OneByte, self.bytes[place]).read(alloc, input) {
                Ok(()) => {}
                Err(failure) => return Err(failure),
            }
        }
        Ok(())
    }

    fn write(&self, _value: &(), bytes: &mut Vec<u8>) -> Result<(), Unwritten> {
        match bytes.extend_from_slice(self.bytes) {
            Ok(()) => Ok(()),
            Err(refused) => Err(Unwritten::Refused(refused)),
        }
    }
}

/// The format of bytes of zero; [`padding`] makes it.
#[derive(Clone, Copy, Drop)]
pub struct ZeroBytes {
    count: usize,
}

/// Returns the format of this number of bytes of zero, as reserved bytes are. Its value is `()`,
/// and reading backtracks at any other byte.
///
/// ```
/// let word = (byte(), padding(3));
/// assert_eq!(rt; read_all(alloc, &word, b"\x07\0\0\0")?, (7, ()));
/// ```
pub fn padding(count: usize) -> ZeroBytes
    ensures { result ≡ record { count = count } }
{
    ZeroBytes { count }
}

impl Format for ZeroBytes {
    type Value = ();

    ghost spells = { λ f. SpellsLiteral (replicate f.count 0) };

    ghost same = { IsNothing };

    ghost lawful = { λ f. IsFormat-Literal (replicate f.count 0) };

    fn read<I: StreamIsPartial<Token = u8>, E: ParserError<I>>(
        &self,
        alloc: Global,
        input: &mut I,
    ) -> ModalResult<(), E> {
        for _place in 0..self.count {
            match Only::<0>.read(alloc, input) {
                Ok(()) => {}
                Err(failure) => return Err(failure),
            }
        }
        Ok(())
    }

    fn write(&self, _value: &(), bytes: &mut Vec<u8>) -> Result<(), Unwritten> {
        let start = bytes.len();
        for _place in 0..self.count {
            match bytes.push(0) {
                Ok(()) => {}
                Err(failed) => {
                    bytes.truncate(start);
                    return Err(Unwritten::Refused(failed.into()));
                }
            }
        }
        Ok(())
    }
}
