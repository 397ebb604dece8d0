//! Reading an item of the general form.

use crate::cursor::Cursor;
use crate::fault::{Cause, ReadError};
use crate::general_head::{GeneralHead, read_head};
use crate::scalars::read_scalar;
use format_cbor::Item;
use std::alloc::Global;

/// What an item may have.
#[derive(Clone, Copy, Debug, Drop)]
pub struct Limits {
    /// Within how many arrays, maps and tags an item may stand. Calls are nested as deep
    pub depth: usize,
    /// How many bytes a string may have
    pub longest: usize,
}

/// Reads the item with which the bytes begin, and returns it with the number of its bytes.
///
/// Bytes that may go on are to be read when [`Scan`](crate::Scan) has found the end of the item;
/// before it the error is that they end early, or another one. Memory is asked for as items and
/// chunks come, never for a count.
pub fn read_item(alloc: Global, limits: Limits, bytes: &[u8]) -> Result<(Item, usize), ReadError> {
    let mut cursor = Cursor::new(bytes);
    let item = read_next(alloc, limits.longest, limits.depth, &mut cursor)?;
    Ok((item, cursor.offset()))
}

// Reads an item within at most `depth` arrays, maps and tags.
#[cycle(general)]
fn read_next(
    alloc: Global,
    longest: usize,
    depth: usize,
    cursor: &mut Cursor<'_>,
) -> Result<Item, ReadError> {
    let head = read_head(cursor)?;
    match head.major {
        4 => Ok(Item::Array(read_items(alloc, longest, depth, head, cursor)?)),
        5 => Ok(Item::Map(read_entries(alloc, longest, depth, head, cursor)?)),
        6 => {
            let number = head.number()?;
            let item = read_inner(alloc, longest, depth, cursor)?;
            match Box::new(alloc, item) {
                Ok(tagged) => Ok(Item::Tagged(number, tagged)),
                Err(failed) => Err(ReadError::Refused(failed.into())),
            }
        }
        _ => Ok(Item::Scalar(read_scalar(alloc, longest, head, cursor)?)),
    }
}

// Reads an item that stands inside another. One that is too deep is so from its first byte on.
#[cycle(general)]
fn read_inner(
    alloc: Global,
    longest: usize,
    depth: usize,
    cursor: &mut Cursor<'_>,
) -> Result<Item, ReadError> {
    if depth == 0 {
        let start = *cursor;
        cursor.next_byte()?;
        return Err(start.error(Cause::TooDeep));
    }
    read_next(alloc, longest, depth - 1, cursor)
}

// Reads the items of an array, as many as its head says, or those before its break.
#[cycle(general)]
fn read_items(
    alloc: Global,
    longest: usize,
    depth: usize,
    head: GeneralHead,
    cursor: &mut Cursor<'_>,
) -> Result<Vec<Item>, ReadError> {
    let mut items = Vec::new(alloc);
    for _ in 0..head.argument.unwrap_or(u64::MAX) {
        if head.argument.is_none() && cursor.takes_break() {
            return Ok(items);
        }
        let item = read_inner(alloc, longest, depth, cursor)?;
        append(&mut items, item)?;
    }
    Ok(items)
}

// Reads the keys and values of a map, as many as its head says, or those before its break.
#[cycle(general)]
fn read_entries(
    alloc: Global,
    longest: usize,
    depth: usize,
    head: GeneralHead,
    cursor: &mut Cursor<'_>,
) -> Result<Vec<(Item, Item)>, ReadError> {
    let mut entries = Vec::new(alloc);
    for _ in 0..head.argument.unwrap_or(u64::MAX) {
        if head.argument.is_none() && cursor.takes_break() {
            return Ok(entries);
        }
        let key = read_inner(alloc, longest, depth, cursor)?;
        let value = read_inner(alloc, longest, depth, cursor)?;
        append(&mut entries, (key, value))?;
    }
    Ok(entries)
}

// Appends a value to a list.
fn append<T: Drop>(list: &mut Vec<T>, value: T) -> Result<(), ReadError> {
    match list.push(value) {
        Ok(()) => Ok(()),
        Err(failed) => Err(ReadError::Refused(failed.into())),
    }
}
