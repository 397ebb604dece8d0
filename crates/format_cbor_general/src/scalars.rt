//! Reading scalars of any width.

use crate::cursor::Cursor;
use crate::fault::{Cause, ReadError};
use crate::general_head::{GeneralHead, read_head};
use format_cbor::Scalar;
use std::alloc::Global;
use std::str;

// The major type of texts.
const TEXT: u8 = 3;

/// Reads the scalar after its head, of which a string has at most `longest` bytes.
pub(crate) fn read_scalar(
    alloc: Global,
    longest: usize,
    head: GeneralHead,
    cursor: &mut Cursor<'_>,
) -> Result<Scalar, ReadError> {
    match head.major {
        0 => Ok(Scalar::Unsigned(head.number()?)),
        1 => Ok(Scalar::Negative(head.number()?)),
        2 => Ok(Scalar::Bytes(read_string(alloc, longest, head, cursor)?)),
        TEXT => {
            let bytes = read_string(alloc, longest, head, cursor)?;
            match String::from_utf8(bytes) {
                Ok(text) => Ok(Scalar::Text(text)),
                Err(_) => Err(head.error(Cause::NoText)),
            }
        }
        _ => simple_of(head),
    }
}

// Returns the simple value or the float with this head.
fn simple_of(head: GeneralHead) -> Result<Scalar, ReadError> {
    let Some(argument) = head.argument else {
        return Err(head.error(Cause::StrayBreak));
    };
    match head.information {
        20 => Ok(Scalar::Boolean(false)),
        21 => Ok(Scalar::Boolean(true)),
        22 => Ok(Scalar::Null),
        23 => Ok(Scalar::Undefined),
        25 => Ok(Scalar::Half((argument % 65536) as u16)),
        26 => Ok(Scalar::Single((argument % 4_294_967_296) as u32)),
        27 => Ok(Scalar::Double(argument)),
        24 if argument < 32 => Err(head.error(Cause::ShortSimple)),
        _ => Ok(Scalar::Simple((argument % 256) as u8)),
    }
}

// Reads the bytes of a string after its head: those of its chunks, if its length is indefinite.
fn read_string(
    alloc: Global,
    longest: usize,
    head: GeneralHead,
    cursor: &mut Cursor<'_>,
) -> Result<Vec<u8>, ReadError> {
    let mut bytes = Vec::new(alloc);
    if let Some(count) = head.argument {
        read_chunk(longest, head, count, cursor, &mut bytes)?;
        return Ok(bytes);
    }
    // There are more turns than an input can have chunks.
    for _ in 0..u64::MAX {
        if cursor.takes_break() {
            return Ok(bytes);
        }
        let chunk = read_head(cursor)?;
        match chunk.argument {
            Some(count) if chunk.major == head.major => {
                read_chunk(longest, chunk, count, cursor, &mut bytes)?;
            }
            _ => return Err(chunk.error(Cause::NoChunk)),
        }
    }
    Err(head.error(Cause::TooLong))
}

// Appends a chunk of this number of bytes. Of a text each chunk is in UTF-8 (section 3.2.3).
fn read_chunk(
    longest: usize,
    head: GeneralHead,
    count: u64,
    cursor: &mut Cursor<'_>,
    bytes: &mut Vec<u8>,
) -> Result<(), ReadError> {
    let count = count as usize;
    if longest.saturating_sub(bytes.len()) < count {
        return Err(head.error(Cause::TooLong));
    }
    let start = *cursor;
    let chunk = cursor.next_bytes(count)?;
    if head.major == TEXT && str::from_utf8(chunk).is_err() {
        return Err(start.error(Cause::NoText));
    }
    bytes.extend_from_slice(chunk)?;
    Ok(())
}
