//! `GeneralHead`: a head whose argument may have any number of bytes.

use crate::cursor::Cursor;
use crate::fault::{Cause, ReadError};

/// A head (section 3).
#[derive(Clone, Copy, Drop)]
pub(crate) struct GeneralHead {
    /// How many bytes are before it
    pub(crate) offset: usize,
    /// The major type, from 0 to 7
    pub(crate) major: u8,
    /// The additional information, from 0 to 31
    pub(crate) information: u8,
    /// The argument; none if the additional information is 31
    pub(crate) argument: Option<u64>,
}

/// Reads a head.
pub(crate) fn read_head(cursor: &mut Cursor<'_>) -> Result<GeneralHead, ReadError> {
    let start = *cursor;
    let first = cursor.next_byte()?;
    let information = first % 32;
    let argument = match information {
        24 => Some(read_number(1, cursor)?),
        25 => Some(read_number(2, cursor)?),
        26 => Some(read_number(4, cursor)?),
        27 => Some(read_number(8, cursor)?),
        28 | 29 | 30 => return Err(start.error(Cause::Reserved)),
        31 => None,
        _ => Some(u64::from(information)),
    };
    Ok(GeneralHead {
        offset: start.offset(),
        major: first / 32,
        information,
        argument,
    })
}

// Reads a number of this many bytes, the most significant first.
fn read_number(count: usize, cursor: &mut Cursor<'_>) -> Result<u64, ReadError> {
    let mut number = 0;
    for byte in cursor.next_bytes(count)? {
        number = (number << 8) | u64::from(*byte);
    }
    Ok(number)
}

impl GeneralHead {
    /// Returns the argument, or the error that there is none.
    pub(crate) fn number(&self) -> Result<u64, ReadError> {
        match self.argument {
            Some(number) => Ok(number),
            None => Err(self.error(Cause::NoArgument)),
        }
    }

    /// Returns the error of this cause at the head.
    pub(crate) fn error(&self, cause: Cause) -> ReadError {
        ReadError::Faulty {
            offset: self.offset,
            cause,
        }
    }
}
