//! Why the program failed.

ghost use Rattle.std.specs.Prelude.{◌≡◌, Some};
ghost use Rattle.example_base.specs.declared.trouble.Trouble.TheVariants.{OutOfMemory};
ghost use Rattle.wb_json.specs.Failures.{fault_text, failure_text, status_of};
ghost use Rattle.wb_json.specs.declared.failure.Failure.TheVariants.{Stopped};

use example_base::Trouble;
use format_json::Cause;
use std::alloc::AllocError;
use std::fmt;
use wb_base::{Excerpt, Position};

/// What is wrong in a text.
#[derive(Clone, Copy, Debug, Drop, PartialEq, Eq)]
pub enum Fault {
    /// No token of JSON stands there, for this cause
    Damaged(Cause),
    /// A token stands there that may not come next
    Unexpected,
    /// A value stands there within too many arrays and objects
    TooDeep,
    /// The input ends before the text does
    EndsEarly,
    /// A token has more bytes than this, the most that one may have
    TooLong(usize),
}

/// The reason why the program ends with a status other than 0. Its text is what is wrong, without
/// the place.
#[derive(Debug, Drop)]
pub enum Failure {
    /// A text is no JSON, or too deep, or a token of it is too long
    Faulty {
        /// Where it is
        position: Position,
        /// What is wrong there
        fault: Fault,
        /// The line of the place, unless memory for it was refused
        excerpt: Option<Excerpt>,
    },
    /// Memory was refused, or reading or writing failed
    Stopped(Trouble),
}

impl Failure {
    /// Returns the exit status for this failure.
    pub fn status(&self) -> u8
        ensures { result ≡ status_of self.now }
    {
        match self {
            Failure::Faulty { .. } => 2,
            Failure::Stopped(trouble) => trouble.status(),
        }
    }

    /// Returns the place of the failure, if it is one of a text.
    pub fn position(&self) -> Option<Position> {
        match self {
            Failure::Faulty { position, .. } => Some(*position),
            Failure::Stopped(_) => None,
        }
    }

    /// Returns the line of the place, if it is kept.
    pub fn excerpt(&self) -> Option<&Excerpt> {
        match self {
            Failure::Faulty { excerpt, .. } => excerpt.as_ref(),
            Failure::Stopped(_) => None,
        }
    }
}

impl fmt::Display for Fault {
    ghost output = { λ fault. Some (fault_text fault) };

    fn fmt<W: fmt::Write>(&self, f: &mut fmt::Formatter<W>) -> fmt::Result {
        match self {
            Fault::Damaged(cause) => write!(f, "{cause}"),
            Fault::Unexpected => write!(f, "a token that may not stand here"),
            Fault::TooDeep => write!(f, "a value within too many arrays and objects"),
            Fault::EndsEarly => write!(f, "the input ends before the text does"),
            Fault::TooLong(limit) => write!(f, "the token has more than {limit} bytes"),
        }
    }
}

impl fmt::Display for Failure {
    ghost output = { λ failure. Some (failure_text failure) };

    fn fmt<W: fmt::Write>(&self, f: &mut fmt::Formatter<W>) -> fmt::Result {
        match self {
            Failure::Faulty { fault, .. } => write!(f, "{fault}"),
            Failure::Stopped(trouble) => write!(f, "{trouble}"),
        }
    }
}

impl From<AllocError> for Failure {
    ghost from_gives = { λ _ failure. failure ≡ Stopped OutOfMemory };

    fn from(refused: AllocError) -> Failure {
        Failure::Stopped(Trouble::from(refused))
    }
}
