//! A part within a length: `within`.

ghost use Rattle.std.specs.Prelude.{◌≡◌};
ghost use Rattle.winnow_codec.specs.WholeFormats.{SpellsWithin, IsFormat-Within};

use crate::bytes::read_bytes;
use crate::{Exact, Format, Unread, Unwritten, Whole};
use std::alloc::Global;
use winnow_error::ParserError;
use winnow_parser::{Failure, ModalResult};
use winnow_stream::StreamIsPartial;

/// The format of a part after the number of its bytes; [`within`] makes it.
#[derive(Clone, Copy, Drop)]
pub struct WithinCount<C, W> {
    count: C,
    part: W,
}

/// Returns the format of a part after the number of its bytes, as vectors of TLS are. The part is
/// read once all of its bytes have come, and must fill them.
pub fn within<C, W>(count: C, part: W) -> WithinCount<C, W>
    ensures { result ≡ record { count = count; part = part } }
{
    WithinCount { count, part }
}

impl<C: Exact<Value = usize>, W: Whole> Format for WithinCount<C, W> {
    type Value = W::Value;

    ghost spells = { λ f. SpellsWithin (C.spells f.count) (W.spells f.part) };

    ghost same = { W.same };

    ghost lawful = { λ f. IsFormat-Within W.same (W.spells f.part) (W.lawful f.part) C.same
        (C.spells f.count) C.exact (C.lawful f.count) };

    fn read<I: StreamIsPartial<Token = u8>, E: ParserError<I>>(
        &self,
        alloc: Global,
        input: &mut I,
    ) -> ModalResult<W::Value, E> {
        match self.count.read(alloc, input) {
            Ok(count) => match read_bytes(count, alloc, input) {
                Ok(bytes) => match self.part.read_whole(alloc, &bytes) {
                    Ok(value) => Ok(value),
                    Err(Unread::Malformed) => Err(Failure::Backtrack(E::from_input(alloc, input))),
                    Err(Unread::Refused(refused)) => Err(Failure::Refused(refused)),
                },
                Err(failure) => Err(failure),
            },
            Err(failure) => Err(failure),
        }
    }

    fn write(&self, value: &W::Value, bytes: &mut Vec<u8>) -> Result<(), Unwritten> {
        // The part comes first, since its length is only known then.
        let mut part = Vec::new(*bytes.allocator());
        self.part.write(value, &mut part)?;
        let start = bytes.len();
        self.count.write(&part.len(), bytes)?;
        match bytes.extend_from_slice(&part) {
            Ok(()) => Ok(()),
            Err(refused) => {
                bytes.truncate(start);
                Err(Unwritten::Refused(refused))
            }
        }
    }
}
