//! Copies of the bytes of a `BStr` and of a `Bytes`, for which memory may be refused.

use crate::cases::tell;
use crate::printing::gives;
use std::alloc::{AllocError, Global};
use winnow_kinds::BStr;
use winnow_stream_bytes::Bytes;

fn text_copies(alloc: Global, text: &BStr<'static>) -> Result<bool, AllocError> {
    gives(text.to_vec(alloc), "[49, 50, 120]")
}

/// The bytes of a `BStr`, copied. When memory is refused, it holds what it held.
pub fn text_to_vec(alloc: Global) -> Result<bool, AllocError> {
    let text = BStr::new(b"12x");
    match text_copies(alloc, &text) {
        Ok(right) => Ok(right),
        Err(_) if text != BStr::new(b"12x") => Ok(false),
        Err(_) => tell(true, text_copies(alloc, &text).unwrap_or(false)),
    }
}

fn byte_copies(alloc: Global, bytes: &Bytes<'static>) -> Result<bool, AllocError> {
    gives(bytes.to_vec(alloc), "[49, 50, 120]")
}

/// The bytes of a `Bytes`, copied. When memory is refused, it holds what it held.
pub fn bytes_to_vec(alloc: Global) -> Result<bool, AllocError> {
    let bytes = Bytes::new(b"12x");
    match byte_copies(alloc, &bytes) {
        Ok(right) => Ok(right),
        Err(_) if bytes != Bytes::new(b"12x") => Ok(false),
        Err(_) => tell(true, byte_copies(alloc, &bytes).unwrap_or(false)),
    }
}
