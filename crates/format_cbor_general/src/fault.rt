//! Why no item is read: `ReadError`, with its `Cause`.

use std::alloc::AllocError;
use std::fmt;

/// What is wrong with some bytes.
#[derive(Clone, Copy, Debug, Drop, PartialEq, Eq)]
pub enum Cause {
    /// The input ends inside an item
    EndsEarly,
    /// The additional information of a head is 28, 29 or 30, which are reserved (section 3)
    Reserved,
    /// The head of an integer or a tag has no argument (additional information 31)
    NoArgument,
    /// A break stands outside an item of indefinite length, or in place of a value (section 3.2.1)
    StrayBreak,
    /// In a string of indefinite length stands something else than strings of its kind and of
    /// definite length (section 3.2.3)
    NoChunk,
    /// A simple value below 32 has two bytes (section 3.3)
    ShortSimple,
    /// A text, or a chunk of one, is not in UTF-8
    NoText,
    /// An item stands within more arrays, maps and tags than the limit
    TooDeep,
    /// A string has more bytes than the limit
    TooLong,
}

/// Why no item was read.
#[derive(Clone, Copy, Debug, Drop)]
pub enum ReadError {
    /// The bytes begin with no item within the limits
    Faulty {
        /// Where it is: this number of bytes before it
        offset: usize,
        /// What is wrong there
        cause: Cause,
    },
    /// Memory was refused
    Refused(AllocError),
}

impl From<AllocError> for ReadError {
    fn from(refused: AllocError) -> ReadError {
        ReadError::Refused(refused)
    }
}

impl fmt::Display for Cause {
    fn fmt<W: fmt::Write>(&self, f: &mut fmt::Formatter<W>) -> fmt::Result {
        match self {
            Cause::EndsEarly => write!(f, "the input ends inside an item"),
            Cause::Reserved => write!(f, "a head that is reserved"),
            Cause::NoArgument => write!(f, "an integer or a tag without its number"),
            Cause::StrayBreak => write!(f, "a break that may not stand here"),
            Cause::NoChunk => write!(f, "no chunk of the string around it"),
            Cause::ShortSimple => write!(f, "a simple value below 32 in two bytes"),
            Cause::NoText => write!(f, "a text that is no UTF-8"),
            Cause::TooDeep => write!(f, "an item within too many arrays, maps and tags"),
            Cause::TooLong => write!(f, "a string of too many bytes"),
        }
    }
}
