//! `literal`, which returns the bytes that hexadecimal digits write.

ghost use Rattle.std.specs.Prelude.{◌≡◌, ◌⊎◌, ◌↔◌, codes, IfOk, IsSome, IfSome};
ghost use Rattle.winnow_script_lines.specs.Literals.{IsHexWord, DenotesBytes};

use hex::FromHexError;
use std::alloc::{AllocError, Global};

/// Returns the bytes that a word means: none for `-`, and else those of its hexadecimal digits,
/// which are an even number, at least two, in either case. Returns `None` for any other word.
pub fn literal(alloc: Global, word: &[u8]) -> Result<Option<Vec<u8>>, AllocError>
    ensures found { IfOk result (λ found.
        IsSome found ↔ ((word.now ≡ codes "-") ⊎ IsHexWord word.now)) }
    ensures bytes { IfOk result (λ found.
        IfSome found (λ bytes. DenotesBytes word.now bytes.items)) }
{
    if word.is_empty() {
        return Ok(None);
    }
    if word == b"-".as_slice() {
        return Ok(Some(Vec::new(alloc)));
    }
    match hex::decode(alloc, word) {
        Ok(bytes) => Ok(Some(bytes)),
        Err(error) => match error {
            FromHexError::OutOfMemory => Err(AllocError),
            _ => Ok(None),
        },
    }
}
