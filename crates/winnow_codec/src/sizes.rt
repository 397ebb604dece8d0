//! A part of a fixed number of bytes: `sized`.

ghost use Rattle.std.specs.Prelude.{◌≡◌};
ghost use Rattle.winnow_codec.specs.Bytes.{SpellsBytes, IsFormat-Bytes};

use crate::bytes::read_bytes;
use crate::{Frame, Inside, Unwritten};
use std::alloc::Global;
use winnow_error::ParserError;
use winnow_parser::ModalResult;
use winnow_stream::StreamIsPartial;

/// The frame of a part of a fixed number of bytes; [`sized`] makes it.
#[derive(Clone, Copy, Drop)]
pub struct PartSize {
    size: usize,
}

/// Returns the format of a value that fills this number of bytes: `sized(8, rest())` is eight bytes
/// as they are, `sized(8, text())` a text of eight bytes. A value of fewer or more bytes has no
/// spelling.
///
/// ```
/// let name = sized(3, text());
/// assert_eq!(rt; read_all(alloc, &name, b"RSA")?.as_str(), "RSA");
/// ```
pub fn sized<W>(size: usize, part: W) -> Inside<PartSize, W>
    ensures { result ≡ record { frame = record { size = size }; part = part } }
{
    Inside {
        frame: PartSize { size },
        part,
    }
}

impl Frame for PartSize {
    ghost frames = { λ f. SpellsBytes f.size };

    ghost lawful = { λ f. IsFormat-Bytes f.size };

    fn read_part<I: StreamIsPartial<Token = u8>, E: ParserError<I>>(
        &self,
        alloc: Global,
        input: &mut I,
    ) -> ModalResult<Vec<u8>, E> {
        match read_bytes(self.size, alloc, input) {
            Ok(bytes) => Ok(bytes),
            Err(failure) => Err(failure),
        }
    }

    fn write_part(&self, part: &[u8], bytes: &mut Vec<u8>) -> Result<(), Unwritten> {
        if part.len() != self.size {
            return Err(Unwritten::Unspelled);
        }
        match bytes.extend_from_slice(part) {
            Ok(()) => Ok(()),
            Err(refused) => Err(Unwritten::Refused(refused)),
        }
    }
}
