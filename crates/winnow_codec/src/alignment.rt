//! A value that is padded with zeros to a multiple of a number of bytes: `aligned`.

ghost use Rattle.std.specs.Prelude.{◌≡◌};
ghost use Rattle.winnow_codec.specs.Alignment.{bytes_to_multiple, SpellsAligned, IsFormat-Aligned};

use crate::{Exact, Format, Unwritten, padding};
use std::alloc::Global;
use winnow_error::ParserError;
use winnow_parser::{Failure, ModalResult};
use winnow_stream::StreamIsPartial;

/// The format of a value that is padded to a multiple of a number of bytes; [`aligned`] makes it.
#[derive(Clone, Copy, Drop)]
pub struct ToMultiple<F> {
    multiple: usize,
    inner: F,
}

/// Returns the format of a value and of bytes of zero after it, up to the next multiple of this
/// number of bytes from where the value begins. Other padding is not read. A multiple of 0 or 1
/// pads nothing. The reader writes the value that it has read, since the padding depends on the
/// number of its bytes, and allocates memory for them.
///
/// ```
/// let name = aligned(4, bytes_after(count_of(be_u32())));
/// let padded = b"\0\0\0\x09sillyprog\0\0\0";
/// let silly = read_all(alloc, &name, padded)?;
/// assert_eq!(rt; silly.as_slice(), b"sillyprog".as_slice());
/// ```
pub fn aligned<F>(multiple: usize, inner: F) -> ToMultiple<F>
    ensures { result ≡ record { multiple = multiple; inner = inner } }
{
    ToMultiple { multiple, inner }
}

// Returns how many bytes there are from this length up to the next multiple.
fn bytes_to_multiple(multiple: usize, length: usize) -> usize
    ensures { result ≡ bytes_to_multiple multiple length }
{
    if multiple == 0 {
        return 0;
    }
    (multiple - length % multiple) % multiple
}

impl<F: Format> Format for ToMultiple<F>
where
    F::Value: Drop,
{
    type Value = F::Value;

    ghost spells = { λ f. SpellsAligned f.multiple (F.spells f.inner) };

    ghost same = { F.same };

    ghost lawful = { λ f. IsFormat-Aligned f.multiple F.same (F.spells f.inner)
        (F.lawful f.inner) };

    fn read<I: StreamIsPartial<Token = u8>, E: ParserError<I>>(
        &self,
        alloc: Global,
        input: &mut I,
    ) -> ModalResult<F::Value, E> {
        let value = match self.inner.read(alloc, input) {
            Ok(value) => value,
            Err(failure) => return Err(failure),
        };
        let mut part = Vec::new(alloc);
        match self.inner.write(&value, &mut part) {
            Ok(()) => {}
            Err(Unwritten::Unspelled) => unreachable!(),
            Err(Unwritten::Refused(refused)) => return Err(Failure::Refused(refused)),
        }
        let missing = bytes_to_multiple(self.multiple, part.len());
        match padding(missing).read(alloc, input) {
            Ok(()) => Ok(value),
            Err(failure) => Err(failure),
        }
    }

    fn write(&self, value: &F::Value, bytes: &mut Vec<u8>) -> Result<(), Unwritten> {
        let start = bytes.len();
        self.inner.write(value, bytes)?;
        let missing = bytes_to_multiple(self.multiple, bytes[start..].len());
        match padding(missing).write(&(), bytes) {
            Ok(()) => Ok(()),
            Err(unwritten) => {
                bytes.truncate(start);
                Err(unwritten)
            }
        }
    }
}

impl<F: Exact> Exact for ToMultiple<F>
where
    F::Value: Drop,
{
    ghost exact = { F.exact };

    fn equal(left: &F::Value, right: &F::Value) -> bool {
        F::equal(left, right)
    }
}
