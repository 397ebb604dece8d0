//! Why a program stopped, if not because of its input.

ghost use Rattle.std.specs.Prelude.{◌≡◌, Some};
ghost use Rattle.std.specs.IoError.{error_kind};
ghost use Rattle.example_base.specs.Trouble.{status_of, reason_of, reason_text, trouble_text};
ghost use Rattle.example_base.specs.Trouble.{read_trouble, write_trouble, is_quiet};
ghost use Rattle.example_base.specs.declared.trouble.Trouble.TheVariants.{OutOfMemory};

use std::alloc::AllocError;
use std::fmt;
use std::io::{self, ErrorKind};

/// Why a system call failed.
#[derive(Clone, Copy, Debug, Drop, PartialEq, Eq)]
pub enum Reason {
    /// No file has the name
    NotFound,
    /// The file may not be read or written
    PermissionDenied,
    /// The file is a directory
    IsADirectory,
    /// A part of the name is no directory
    NotADirectory,
    /// Nothing reads the output any more
    BrokenPipe,
    /// The device is full
    StorageFull,
    /// The name or the call is none
    InvalidInput,
    /// Any other reason
    Other,
}

/// Why a program cannot go on, whatever its input says.
#[derive(Clone, Copy, Debug, Drop, PartialEq, Eq)]
pub enum Trouble {
    /// Memory was refused
    OutOfMemory,
    /// The input could not be opened or read
    Reading(Reason),
    /// The output could not be written
    Writing(Reason),
    /// The input has more bytes than can be counted
    TooLong,
}

impl Reason {
    // Returns the reason for an error of this kind.
    fn of(kind: ErrorKind) -> Reason
        ensures { result ≡ reason_of kind }
    {
        match kind {
            ErrorKind::NotFound => Reason::NotFound,
            ErrorKind::PermissionDenied => Reason::PermissionDenied,
            ErrorKind::IsADirectory => Reason::IsADirectory,
            ErrorKind::NotADirectory => Reason::NotADirectory,
            ErrorKind::BrokenPipe => Reason::BrokenPipe,
            ErrorKind::StorageFull => Reason::StorageFull,
            ErrorKind::InvalidInput => Reason::InvalidInput,
            _ => Reason::Other,
        }
    }
}

impl Trouble {
    /// Returns the trouble for an error of opening or reading the input.
    pub fn reading(error: io::Error) -> Trouble
        ensures { result ≡ read_trouble (error_kind error) }
    {
        match error.kind() {
            ErrorKind::OutOfMemory => Trouble::OutOfMemory,
            kind => Trouble::Reading(Reason::of(kind)),
        }
    }

    /// Returns the trouble for an error of writing the output.
    pub fn writing(error: io::Error) -> Trouble
        ensures { result ≡ write_trouble (error_kind error) }
    {
        match error.kind() {
            ErrorKind::OutOfMemory => Trouble::OutOfMemory,
            kind => Trouble::Writing(Reason::of(kind)),
        }
    }

    /// Returns the exit status.
    pub fn status(&self) -> u8
        ensures { result ≡ status_of self.now }
    {
        match self {
            Trouble::OutOfMemory => 3,
            Trouble::Reading(_) => 4,
            Trouble::Writing(_) => 4,
            Trouble::TooLong => 4,
        }
    }

    /// Returns whether nothing needs to be said, since whoever read the output has stopped.
    pub fn is_quiet(&self) -> bool
        ensures { result ≡ is_quiet self.now }
    {
        matches!(self, Trouble::Writing(Reason::BrokenPipe))
    }
}

impl fmt::Display for Reason {
    ghost output = { λ reason. Some (reason_text reason) };

    fn fmt<W: fmt::Write>(&self, f: &mut fmt::Formatter<W>) -> fmt::Result {
        match self {
            Reason::NotFound => write!(f, "there is no such file"),
            Reason::PermissionDenied => write!(f, "permission denied"),
            Reason::IsADirectory => write!(f, "it is a directory"),
            Reason::NotADirectory => write!(f, "a part of its name is no directory"),
            Reason::BrokenPipe => write!(f, "nothing reads it any more"),
            Reason::StorageFull => write!(f, "the device is full"),
            Reason::InvalidInput => write!(f, "no file can have this name"),
            Reason::Other => write!(f, "an error of the system"),
        }
    }
}

impl fmt::Display for Trouble {
    ghost output = { λ trouble. Some (trouble_text trouble) };

    fn fmt<W: fmt::Write>(&self, f: &mut fmt::Formatter<W>) -> fmt::Result {
        match self {
            Trouble::OutOfMemory => write!(f, "memory was refused"),
            Trouble::Reading(reason) => write!(f, "the input cannot be read: {reason}"),
            Trouble::Writing(reason) => write!(f, "the output cannot be written: {reason}"),
            Trouble::TooLong => write!(f, "the input has more bytes than can be counted"),
        }
    }
}

impl From<AllocError> for Trouble {
    ghost from_gives = { λ _ trouble. trouble ≡ OutOfMemory };

    fn from(_refused: AllocError) -> Trouble {
        Trouble::OutOfMemory
    }
}
