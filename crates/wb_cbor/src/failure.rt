//! Why the program failed.

use example_base::Trouble;
use format_cbor_general::Cause;
use std::alloc::AllocError;
use std::fmt;

/// What is wrong in the input.
#[derive(Clone, Copy, Debug, Drop, PartialEq, Eq)]
pub enum Fault {
    /// No item within the limits goes on there, for this cause
    Malformed(Cause),
    /// The item is well-formed, but no deterministic one goes on there
    Indeterminate,
}

/// The reason why the program ends with a status other than 0.
#[derive(Clone, Copy, Debug, Drop)]
pub enum Failure {
    /// The input is faulty
    Faulty {
        /// How many bytes are before the fault
        offset: usize,
        /// What is wrong there
        fault: Fault,
    },
    /// Memory was refused, or reading or writing failed
    Stopped(Trouble),
}

impl Failure {
    /// Returns the exit status for this failure.
    pub fn status(&self) -> u8 {
        match self {
            Failure::Faulty { .. } => 2,
            Failure::Stopped(trouble) => trouble.status(),
        }
    }
}

impl fmt::Display for Fault {
    fn fmt<W: fmt::Write>(&self, f: &mut fmt::Formatter<W>) -> fmt::Result {
        match self {
            Fault::Malformed(cause) => write!(f, "{cause}"),
            Fault::Indeterminate => write!(
                f,
                "what stands before it is not in the deterministic form"
            ),
        }
    }
}

impl fmt::Display for Failure {
    fn fmt<W: fmt::Write>(&self, f: &mut fmt::Formatter<W>) -> fmt::Result {
        match self {
            Failure::Faulty { offset, fault } => write!(f, "at byte {offset}: {fault}"),
            Failure::Stopped(trouble) => write!(f, "{trouble}"),
        }
    }
}

impl From<AllocError> for Failure {
    fn from(refused: AllocError) -> Failure {
        Failure::Stopped(Trouble::from(refused))
    }
}
