//! The bytes of a word of a script, read while memory may be refused.

use crate::cases::tell;
use crate::printing::gives;
use std::alloc::{AllocError, Global};
use winnow_script_lines::literal;

const WORD: &[u8] = b"31327A";

fn reads(alloc: Global, word: &[u8]) -> Result<bool, AllocError> {
    gives(literal(alloc, word), "Some([49, 50, 122])")
}

/// The bytes that a word of a script stands for. When memory is refused, the word can be read
/// again.
pub fn read_literal(alloc: Global) -> Result<bool, AllocError> {
    match reads(alloc, WORD) {
        Ok(right) => Ok(right),
        Err(_) => tell(true, reads(alloc, WORD).unwrap_or(false)),
    }
}
