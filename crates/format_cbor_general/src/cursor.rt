//! `Cursor`: the bytes that are not read yet.

use crate::fault::{Cause, ReadError};

/// The bytes of an item that are not read yet.
#[derive(Clone, Copy, Drop)]
pub(crate) struct Cursor<'a> {
    rest: &'a [u8],
    // How many bytes there were at first.
    length: usize,
}

/// The byte that ends an item of indefinite length.
pub(crate) const BREAK: u8 = 0xff;

impl<'a> Cursor<'a> {
    /// Returns a cursor before these bytes.
    pub(crate) fn new(bytes: &'a [u8]) -> Self {
        Cursor {
            rest: bytes,
            length: bytes.len(),
        }
    }

    /// Returns how many bytes were read.
    pub(crate) fn offset(&self) -> usize {
        self.length.saturating_sub(self.rest.len())
    }

    /// Returns the error of this cause before the next byte.
    pub(crate) fn error(&self, cause: Cause) -> ReadError {
        ReadError::Faulty {
            offset: self.offset(),
            cause,
        }
    }

    /// Reads a byte.
    pub(crate) fn next_byte(&mut self) -> Result<u8, ReadError> {
        match self.rest {
            [first, rest @ ..] => {
                self.rest = rest;
                Ok(*first)
            }
            [] => Err(self.error(Cause::EndsEarly)),
        }
    }

    /// Reads this number of bytes.
    pub(crate) fn next_bytes(&mut self, count: usize) -> Result<&'a [u8], ReadError> {
        if self.rest.len() < count {
            self.rest = &[];
            return Err(self.error(Cause::EndsEarly));
        }
        let (bytes, rest) = self.rest.split_at(count);
        self.rest = rest;
        Ok(bytes)
    }

    /// Reads a break, and returns whether there was one.
    pub(crate) fn takes_break(&mut self) -> bool {
        match self.rest {
            [first, rest @ ..] if *first == BREAK => {
                self.rest = rest;
                true
            }
            _ => false,
        }
    }
}
