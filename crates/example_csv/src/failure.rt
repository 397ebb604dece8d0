//! Why the program failed.

ghost use Rattle.std.specs.Prelude.{◌≡◌, Some};
ghost use Rattle.example_base.specs.declared.trouble.Trouble.TheVariants.{OutOfMemory};
ghost use Rattle.example_csv.specs.Failures.{fault_at, fault_text};
ghost use Rattle.example_csv.specs.Failures.{status_of, failure_text};
ghost use Rattle.example_csv.specs.declared.failure.Failure.TheVariants.{Stopped};

use crate::positions::Position;
use example_base::Trouble;
use format_csv::Mark;
use std::alloc::AllocError;
use std::fmt;

/// What is wrong where a record breaks off.
#[derive(Clone, Copy, Debug, Drop, PartialEq, Eq)]
pub enum Fault {
    /// The input ends inside a quoted field
    Unclosed,
    /// A quote inside a field that does not begin with one
    QuoteInside,
    /// A carriage return with no line feed after it
    LoneReturn,
    /// A byte after a closing quote that is neither a comma nor a line end
    AfterQuote,
}

impl Fault {
    /// Returns what is wrong where these bytes follow a field.
    pub fn of(rest: &[u8]) -> Fault
        ensures { result ≡ fault_at rest.now }
    {
        match rest {
            [] => Fault::Unclosed,
            [b'"', ..] => Fault::QuoteInside,
            [b'\r', ..] => Fault::LoneReturn,
            _ => Fault::AfterQuote,
        }
    }
}

/// The reason why the program ends with a status other than 0.
#[derive(Clone, Copy, Debug, Drop, PartialEq, Eq)]
pub enum Failure {
    /// A record is damaged there
    Damaged(Position, Fault),
    /// The record that begins on this line has this number of fields, and the first record another
    Uneven {
        /// The line, counted from 1
        line: usize,
        /// The number of its fields
        fields: usize,
        /// The number of fields of the first record
        first: usize,
    },
    /// This byte order mark stands before the first record
    Marked(Mark),
    /// Memory was refused, or reading or writing failed
    Stopped(Trouble),
}

impl Failure {
    /// Returns the exit status for this failure.
    pub fn status(&self) -> u8
        ensures { result ≡ status_of self.now }
    {
        match self {
            Failure::Damaged(_, _) => 2,
            Failure::Uneven { .. } => 2,
            Failure::Marked(_) => 2,
            Failure::Stopped(trouble) => trouble.status(),
        }
    }
}

impl fmt::Display for Fault {
    ghost output = { λ fault. Some (fault_text fault) };

    fn fmt<W: fmt::Write>(&self, f: &mut fmt::Formatter<W>) -> fmt::Result {
        match self {
            Fault::Unclosed => write!(f, "the input ends inside a quoted field"),
            Fault::QuoteInside => write!(f, "a quote inside a field that does not begin with one"),
            Fault::LoneReturn => write!(f, "a carriage return with no line feed after it"),
            Fault::AfterQuote => {
                write!(
                    f,
                    "neither a comma nor a line end follows the closing quote"
                )
            }
        }
    }
}

impl fmt::Display for Failure {
    ghost output = { λ failure. Some (failure_text failure) };

    fn fmt<W: fmt::Write>(&self, f: &mut fmt::Formatter<W>) -> fmt::Result {
        match self {
            Failure::Damaged(position, fault) => write!(f, "{position}: {fault}"),
            Failure::Uneven {
                line,
                fields,
                first,
            } => write!(
                f,
                "line {line}: {fields} fields, but the first record has {first}"
            ),
            Failure::Marked(mark) => write!(f, "{mark}"),
            Failure::Stopped(trouble) => write!(f, "{trouble}"),
        }
    }
}

impl From<AllocError> for Failure {
    ghost from_gives = { λ _ failure. failure ≡ Stopped OutOfMemory };

    fn from(refused: AllocError) -> Failure {
        Failure::Stopped(Trouble::from(refused))
    }
}
