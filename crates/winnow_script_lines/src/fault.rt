//! `ScriptFault`: a faulty or missing line, or refused memory.

ghost use Rattle.std.specs.Prelude.{◌≡◌, Some};
ghost use Rattle.winnow_script_lines.specs.Fault.{fault_text};
ghost use Rattle.winnow_script_lines.specs.declared.fault.ScriptFault.TheVariants.{OutOfMemory};

use std::alloc::{AllocError, AllocFailed};
use std::error::Error;
use std::fmt;

/// Why a script was not run to its end.
#[derive(Debug, Drop, PartialEq, Eq)]
pub enum ScriptFault {
    /// The line with this number, counted from 1, is the first that is faulty or missing.
    Line(usize),
    /// Memory was refused before a faulty line was reached.
    OutOfMemory,
}

impl fmt::Display for ScriptFault {
    ghost output = { λ fault. Some (fault_text fault) };

    fn fmt<W: fmt::Write>(&self, f: &mut fmt::Formatter<W>) -> fmt::Result {
        match self {
            ScriptFault::Line(number) => write!(f, "line {number}: faulty"),
            ScriptFault::OutOfMemory => write!(f, "out of memory"),
        }
    }
}

impl Error for ScriptFault {}

impl From<AllocError> for ScriptFault {
    ghost from_gives = { λ _ e. e ≡ OutOfMemory };

    fn from(_error: AllocError) -> ScriptFault {
        ScriptFault::OutOfMemory
    }
}

impl<T: Drop> From<AllocFailed<T>> for ScriptFault {
    ghost from_gives = { λ _ e. e ≡ OutOfMemory };

    fn from(_error: AllocFailed<T>) -> ScriptFault {
        ScriptFault::OutOfMemory
    }
}
