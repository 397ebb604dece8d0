//! The reasons why the program fails: `Failure`, with its text and its exit status.

ghost use Rattle.std.specs.Prelude.{◌≡◌, Some};
ghost use Rattle.std.specs.IoError.{error_kind};
ghost use Rattle.winnow_script_lines.specs.Failure.{status_of, failure_text, failure_of};
ghost use Rattle.winnow_script_lines.specs.declared.failure.Failure.TheVariants.{Script};

use crate::ScriptFault;
use std::fmt;
use std::io::{self, ErrorKind};

/// The reason why the program ends with a status other than 0.
#[derive(Debug, Drop, PartialEq, Eq)]
pub enum Failure {
    /// The script is faulty, or memory was refused
    Script(ScriptFault),
    /// Reading or writing failed, or the script is too long
    InputOrOutput,
}

impl Failure {
    /// Returns the exit status for this failure.
    pub fn status(&self) -> u8
        ensures { result ≡ status_of self.now }
    {
        match self {
            Failure::Script(ScriptFault::Line(_)) => 2,
            Failure::Script(ScriptFault::OutOfMemory) => 3,
            Failure::InputOrOutput => 4,
        }
    }
}

impl fmt::Display for Failure {
    ghost output = { λ failure. Some (failure_text failure) };

    fn fmt<W: fmt::Write>(&self, f: &mut fmt::Formatter<W>) -> fmt::Result {
        match self {
            Failure::Script(fault) => write!(f, "{fault}"),
            Failure::InputOrOutput => write!(f, "input or output failed"),
        }
    }
}

impl From<ScriptFault> for Failure {
    ghost from_gives = { λ fault failure. failure ≡ Script fault };

    fn from(fault: ScriptFault) -> Failure {
        Failure::Script(fault)
    }
}

impl From<io::Error> for Failure {
    ghost from_gives = { λ error failure. failure ≡ failure_of (error_kind error) };

    fn from(error: io::Error) -> Failure {
        match error.kind() {
            ErrorKind::OutOfMemory => Failure::Script(ScriptFault::OutOfMemory),
            _ => Failure::InputOrOutput,
        }
    }
}
