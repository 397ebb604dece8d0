//! Why the program failed.

ghost use Rattle.std.specs.Prelude.{◌≡◌, Some};
ghost use Rattle.example_base.specs.declared.trouble.Trouble.TheVariants.{OutOfMemory};
ghost use Rattle.example_json.specs.Failures.{status_of, failure_text};
ghost use Rattle.example_json.specs.declared.failure.Failure.TheVariants.{Stopped};

use crate::positions::Position;
use example_base::Trouble;
use format_json::Cause;
use std::alloc::AllocError;
use std::fmt;

/// The reason why the program ends with a status other than 0.
#[derive(Clone, Copy, Debug, Drop, PartialEq, Eq)]
pub enum Failure {
    /// No token of JSON stands there, for this cause
    Damaged(Position, Cause),
    /// A token stands there that may not come next
    Unexpected(Position),
    /// A value stands there within too many arrays and objects
    TooDeep(Position),
    /// The input ends before the text does
    EndsEarly(Position),
    /// Memory was refused, or reading or writing failed
    Stopped(Trouble),
}

impl Failure {
    /// Returns the exit status for this failure.
    pub fn status(&self) -> u8
        ensures { result ≡ status_of self.now }
    {
        match self {
            Failure::Damaged(_, _) => 2,
            Failure::Unexpected(_) => 2,
            Failure::TooDeep(_) => 2,
            Failure::EndsEarly(_) => 2,
            Failure::Stopped(trouble) => trouble.status(),
        }
    }
}

impl fmt::Display for Failure {
    ghost output = { λ failure. Some (failure_text failure) };

    fn fmt<W: fmt::Write>(&self, f: &mut fmt::Formatter<W>) -> fmt::Result {
        match self {
            Failure::Damaged(place, cause) => write!(f, "{place}: {cause}"),
            Failure::Unexpected(place) => write!(f, "{place}: a token that may not stand here"),
            Failure::TooDeep(place) => {
                write!(f, "{place}: a value within too many arrays and objects")
            }
            Failure::EndsEarly(place) => write!(f, "{place}: the input ends before the text does"),
            Failure::Stopped(trouble) => write!(f, "{trouble}"),
        }
    }
}

impl From<AllocError> for Failure {
    ghost from_gives = { λ _ failure. failure ≡ Stopped OutOfMemory };

    fn from(refused: AllocError) -> Failure {
        Failure::Stopped(Trouble::from(refused))
    }
}
