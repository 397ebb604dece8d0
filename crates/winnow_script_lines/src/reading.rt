//! `read_script`, which reads a reader to its end, up to a limit on bytes.

ghost use Rattle.std.specs.Prelude.{◌≡◌, ◌≤◌, IfOk, IfSome, vec_len};

use crate::Failure;
use std::alloc::Global;
use std::io::Read;

/// The greatest number of bytes that a script may have.
const MAX_INPUT: u64 = 1_048_576;

/// Returns the bytes of a reader to its end, if there are not too many.
pub fn read_script<R: Read + Drop>(alloc: Global, reader: R) -> Result<Vec<u8>, Failure>
    ensures within { IfOk result (λ input. vec_len input ≤ MAX_INPUT) }
    ensures whole { IfOk result (λ input.
        IfSome (R.remaining reader) (λ bytes. input.items ≡ bytes)) }
{
    let mut input = Vec::new(alloc);
    // One byte past the limit shows that there are too many bytes.
    let length = reader.take(MAX_INPUT + 1).read_to_end(&mut input)?;
    if length as u64 > MAX_INPUT {
        return Err(Failure::InputOrOutput);
    }
    Ok(input)
}
