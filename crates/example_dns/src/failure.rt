//! Why the program failed.

use example_base::Trouble;
use format_dns::Unexpanded;
use std::alloc::{AllocError, AllocFailed};
use std::fmt;
use winnow_codec::Unwritten;

/// The reason why the program ends with a status other than 0.
#[derive(Debug, Drop)]
pub enum Failure {
    /// The bytes are no message
    NoMessage,
    /// So many bytes follow the message
    Trailing(usize),
    /// The input has more bytes than a message can have
    TooLong,
    /// No name stands at the place to which this pointer leads
    NoName(u16),
    /// This pointer leads no further back than the one before it
    NotBack(u16),
    /// A name has more than 255 bytes
    LongName,
    /// Memory was refused, or reading or writing failed
    Stopped(Trouble),
}

impl Failure {
    /// Returns the exit status for this failure.
    pub fn status(&self) -> u8 {
        match self {
            Failure::Stopped(trouble) => trouble.status(),
            _ => 2,
        }
    }
}

impl fmt::Display for Failure {
    fn fmt<W: fmt::Write>(&self, f: &mut fmt::Formatter<W>) -> fmt::Result {
        match self {
            Failure::NoMessage => write!(f, "the bytes are no message"),
            Failure::Trailing(count) => write!(f, "{count} bytes follow the message"),
            Failure::TooLong => write!(f, "a message has at most 65535 bytes"),
            Failure::NoName(place) => write!(f, "no name stands at byte {place}"),
            Failure::NotBack(place) => {
                write!(f, "the pointer to byte {place} leads no further back")
            }
            Failure::LongName => write!(f, "a name has more than 255 bytes"),
            Failure::Stopped(trouble) => write!(f, "{trouble}"),
        }
    }
}

impl From<Trouble> for Failure {
    fn from(trouble: Trouble) -> Failure {
        Failure::Stopped(trouble)
    }
}

impl From<AllocError> for Failure {
    fn from(_refused: AllocError) -> Failure {
        Failure::Stopped(Trouble::OutOfMemory)
    }
}

impl From<AllocFailed<u8>> for Failure {
    fn from(_refused: AllocFailed<u8>) -> Failure {
        Failure::Stopped(Trouble::OutOfMemory)
    }
}

impl From<Unwritten> for Failure {
    fn from(unwritten: Unwritten) -> Failure {
        match unwritten {
            Unwritten::Unspelled => Failure::NoMessage,
            Unwritten::Refused(_) => Failure::Stopped(Trouble::OutOfMemory),
        }
    }
}

impl From<Unexpanded> for Failure {
    fn from(unexpanded: Unexpanded) -> Failure {
        match unexpanded {
            Unexpanded::NoName(place) => Failure::NoName(place),
            Unexpanded::NotBack(place) => Failure::NotBack(place),
            Unexpanded::TooLong => Failure::LongName,
            Unexpanded::Unspelled => Failure::NoMessage,
            Unexpanded::Refused(_) => Failure::Stopped(Trouble::OutOfMemory),
        }
    }
}
