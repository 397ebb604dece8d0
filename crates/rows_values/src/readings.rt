//! Rows of `parse_slice`, at each type that a text or bytes are read as.

use rows::{Fault, Word, Words};
use std::alloc::{AllocError, Global};
use std::fmt::Debug;
use winnow_count::{ParseSlice, Readable};

// Returns what a slice reads as, called through the bound.
fn read<R: Debug + Drop, S: ParseSlice<R>>(alloc: Global, slice: &S) -> Result<String, AllocError> {
    let value = slice.parse_slice();
    format!(in alloc; "{value:?}")
}

// Returns what a text reads as, as a text and as bytes, or what bytes read as.
fn value<R: Readable + Debug + Drop>(alloc: Global, slice: &Word) -> Result<String, Fault> {
    match slice {
        Word::Bytes(bytes) => Ok(read::<R, &[u8]>(alloc, &bytes.as_slice())?),
        Word::Text(text) => {
            let in_text = read::<R, &str>(alloc, &text.as_str())?;
            let in_bytes = read::<R, &[u8]>(alloc, &text.as_str().as_bytes())?;
            if in_text == in_bytes {
                return Ok(in_text);
            }
            Ok(format!(in alloc; "{in_text}, and in bytes {in_bytes}")?)
        }
        _ => Err(Fault::NoSuchCall),
    }
}

// Returns what a slice reads as, at a type with a sign.
fn signed(alloc: Global, name: &str, slice: &Word) -> Result<String, Fault> {
    match name {
        "i8" => value::<i8>(alloc, slice),
        "i16" => value::<i16>(alloc, slice),
        "i32" => value::<i32>(alloc, slice),
        "i64" => value::<i64>(alloc, slice),
        "i128" => value::<i128>(alloc, slice),
        "isize" => value::<isize>(alloc, slice),
        _ => Err(Fault::NoSuchCall),
    }
}

/// Returns the debug text of what a slice reads as. The first word names the type to read, the
/// second is the slice.
pub fn parse_slice(alloc: Global, words: &Words) -> Result<String, Fault> {
    let (name, slice) = (words.plain(0)?, words.word(1)?);
    match name {
        "u8" => value::<u8>(alloc, slice),
        "u16" => value::<u16>(alloc, slice),
        "u32" => value::<u32>(alloc, slice),
        "u64" => value::<u64>(alloc, slice),
        "u128" => value::<u128>(alloc, slice),
        "usize" => value::<usize>(alloc, slice),
        "bool" => value::<bool>(alloc, slice),
        "char" => value::<char>(alloc, slice),
        _ => signed(alloc, name, slice),
    }
}
