//! Why a program that prints replies failed.

ghost use Rattle.std.specs.Prelude.{◌≡◌, Some};
ghost use Rattle.example_base.specs.declared.trouble.Trouble.TheVariants.{OutOfMemory};
ghost use Rattle.wb_replies.specs.Failure.{status_of, place_of, failure_text};
ghost use Rattle.wb_replies.specs.declared.failure.Failure.TheVariants.{Stopped};

use crate::positions::Position;
use example_base::Trouble;
use format_resp::Cause;
use std::alloc::AllocError;
use std::fmt;
use wb_base::Excerpt;

/// The reason why a program that prints replies ends with a status other than 0. Its text is what
/// is wrong, without the place.
#[derive(Debug, Drop)]
pub enum Failure {
    /// No reply within the limits stands there, no matter what follows
    NoReply {
        /// Where the bytes that begin a reply break off
        place: Position,
        /// What is wrong there
        cause: Cause,
        /// The line of the place, unless memory for it was refused
        excerpt: Option<Excerpt>,
    },
    /// The input ends inside a reply
    EndsInside {
        /// Where the reply begins
        place: Position,
        /// The line of the place, unless memory for it was refused
        excerpt: Option<Excerpt>,
    },
    /// Memory was refused, or reading or writing failed
    Stopped(Trouble),
}

impl Failure {
    /// Returns the exit status for this failure.
    pub fn status(&self) -> u8
        ensures { result ≡ status_of self.now }
    {
        match self {
            Failure::NoReply { .. } => 2,
            Failure::EndsInside { .. } => 2,
            Failure::Stopped(trouble) => trouble.status(),
        }
    }

    /// Returns the place of the failure, if it is one of the input.
    pub fn place(&self) -> Option<Position>
        ensures { result ≡ place_of self.now }
    {
        match self {
            Failure::NoReply { place, .. } => Some(*place),
            Failure::EndsInside { place, .. } => Some(*place),
            Failure::Stopped(_) => None,
        }
    }

    /// Returns the line of the place, if it is kept.
    pub fn excerpt(&self) -> Option<&Excerpt> {
        match self {
            Failure::NoReply { excerpt, .. } => excerpt.as_ref(),
            Failure::EndsInside { excerpt, .. } => excerpt.as_ref(),
            Failure::Stopped(_) => None,
        }
    }
}

impl fmt::Display for Failure {
    ghost output = { λ failure. Some (failure_text failure) };

    fn fmt<W: fmt::Write>(&self, f: &mut fmt::Formatter<W>) -> fmt::Result {
        match self {
            Failure::NoReply { cause, .. } => write!(f, "{cause}"),
            Failure::EndsInside { .. } => {
                write!(f, "the input ends inside the reply that begins here")
            }
            Failure::Stopped(trouble) => write!(f, "{trouble}"),
        }
    }
}

impl From<AllocError> for Failure {
    ghost from_gives = { λ _ failure. failure ≡ Stopped OutOfMemory };

    fn from(refused: AllocError) -> Failure {
        Failure::Stopped(Trouble::from(refused))
    }
}
