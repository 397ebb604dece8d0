//! Items that an accumulator takes, each made by its number.

use std::alloc::{AllocError, Global};
use std::borrow::CowStr;

const PIECES: [&[usize]; 5] = [&[0, 1], &[2, 3], &[4, 5], &[6, 7], &[8, 9]];

/// The characters, and their text.
pub const TEXT: &str = "abcdefghijklmnopqr";

const TEXTS: [&str; 6] = ["abc", "def", "ghi", "jkl", "mno", "pqr"];

/// A text that is lent or owned.
pub type Cow = CowStr<'static, Global>;

/// An item that can be made again by its number.
pub trait Item: Drop {
    /// A number of items that do not fit in the room of a first growth.
    const TOTAL: usize;

    /// The number of elements or bytes that one item adds.
    const WIDTH: usize;

    /// Whether a `CowStr` that holds a single item owns its text.
    const IS_OWNED: bool;

    /// Returns the item with this number, which is below `TOTAL`.
    fn made(alloc: Global, number: usize) -> Result<Self, AllocError>;
}

impl Item for usize {
    const TOTAL: usize = 20;

    const WIDTH: usize = 1;

    const IS_OWNED: bool = true;

    fn made(_alloc: Global, number: usize) -> Result<Self, AllocError> {
        Ok(number)
    }
}

/// Each number, paired with itself.
impl Item for (usize, usize) {
    const TOTAL: usize = 20;

    const WIDTH: usize = 1;

    const IS_OWNED: bool = true;

    fn made(_alloc: Global, number: usize) -> Result<Self, AllocError> {
        Ok((number, number))
    }
}

/// The numbers in pieces.
impl Item for &'static [usize] {
    const TOTAL: usize = 5;

    const WIDTH: usize = 2;

    const IS_OWNED: bool = true;

    fn made(_alloc: Global, number: usize) -> Result<Self, AllocError> {
        Ok(PIECES.get(number).copied().unwrap_or(&[]))
    }
}

impl Item for char {
    const TOTAL: usize = 18;

    const WIDTH: usize = 1;

    const IS_OWNED: bool = true;

    fn made(_alloc: Global, number: usize) -> Result<Self, AllocError> {
        Ok(TEXT.as_bytes().get(number).copied().map_or('?', char::from))
    }
}

/// The text in pieces.
impl Item for &'static str {
    const TOTAL: usize = 6;

    const WIDTH: usize = 3;

    const IS_OWNED: bool = false;

    fn made(_alloc: Global, number: usize) -> Result<Self, AllocError> {
        Ok(TEXTS.get(number).copied().unwrap_or(""))
    }
}

impl Item for String {
    const TOTAL: usize = 6;

    const WIDTH: usize = 3;

    const IS_OWNED: bool = true;

    fn made(alloc: Global, number: usize) -> Result<Self, AllocError> {
        String::from_str(alloc, TEXTS.get(number).copied().unwrap_or(""))
    }
}

impl Item for Cow {
    const TOTAL: usize = 6;

    const WIDTH: usize = 3;

    const IS_OWNED: bool = false;

    fn made(_alloc: Global, number: usize) -> Result<Self, AllocError> {
        Ok(CowStr::Borrowed(TEXTS.get(number).copied().unwrap_or("")))
    }
}
