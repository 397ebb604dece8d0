//! The needles that the words of a row write.

use rows::{Fault, Words};
use std::alloc::{AllocError, Global};

/// Returns the bytes that the words from `start` on write.
pub fn slices<'w>(alloc: Global, words: &'w Words, start: usize) -> Result<Vec<&'w [u8]>, Fault> {
    let mut needles = Vec::new(alloc);
    for at in start..words.len() {
        needles.push(words.bytes(at)?).map_err(AllocError::from)?;
    }
    Ok(needles)
}

/// Returns the bytes of those words from `start` on that write one.
pub fn single_bytes(alloc: Global, words: &Words, start: usize) -> Result<Vec<u8>, AllocError> {
    let mut needles = Vec::new(alloc);
    for at in start..words.len() {
        if let Ok([byte]) = words.bytes(at) {
            needles.push(*byte)?;
        }
    }
    Ok(needles)
}

/// Returns the texts that the words after the first write.
pub fn texts<'w>(alloc: Global, words: &'w Words) -> Result<Vec<&'w str>, Fault> {
    let mut needles = Vec::new(alloc);
    for at in 1..words.len() {
        needles.push(words.text(at)?).map_err(AllocError::from)?;
    }
    Ok(needles)
}

/// Returns the characters that the words after the first write.
pub fn signs(alloc: Global, words: &Words) -> Result<Vec<char>, Fault> {
    let mut needles = Vec::new(alloc);
    for at in 1..words.len() {
        needles.push(words.sign(at)?).map_err(AllocError::from)?;
    }
    Ok(needles)
}
