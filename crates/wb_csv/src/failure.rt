//! Why the program failed.

ghost use Rattle.std.specs.Prelude.{◌≡◌, Some};
ghost use Rattle.example_base.specs.declared.trouble.Trouble.TheVariants.{OutOfMemory};
ghost use Rattle.wb_csv.specs.Failures.{fault_at, fault_text, wanted_text, failure_text};
ghost use Rattle.wb_csv.specs.Failures.{status_of, delimiter_name};
ghost use Rattle.wb_csv.specs.declared.failure.Failure.TheVariants.{Stopped};

use crate::settings::Wanted;
use example_base::Trouble;
use format_csv::Mark;
use std::alloc::AllocError;
use std::fmt;
use wb_base::{Excerpt, Position};

/// What is wrong where a record breaks off.
#[derive(Clone, Copy, Debug, Drop, PartialEq, Eq)]
pub enum Fault {
    /// The input ends inside a quoted field
    Unclosed,
    /// A quote inside a field that does not begin with one
    QuoteInside,
    /// A carriage return with no line feed after it
    LoneReturn,
    /// A byte after a closing quote that is neither this delimiter nor a line end
    AfterQuote(u8),
}

impl Fault {
    /// Returns what is wrong where these bytes follow a field, and this delimiter might.
    pub fn of(delimiter: u8, rest: &[u8]) -> Fault
        ensures { result ≡ fault_at delimiter rest.now }
    {
        match rest {
            [] => Fault::Unclosed,
            [b'"', ..] => Fault::QuoteInside,
            [b'\r', ..] => Fault::LoneReturn,
            _ => Fault::AfterQuote(delimiter),
        }
    }
}

/// The reason why the program ends with a status other than 0. Its text is what is wrong, without
/// the place.
#[derive(Debug, Drop)]
pub enum Failure {
    /// A record is damaged
    Damaged {
        /// Where it is
        position: Position,
        /// What is wrong there
        fault: Fault,
        /// The line of the place, unless memory for it was refused
        excerpt: Option<Excerpt>,
    },
    /// The record that begins on this line lacks something
    Uneven {
        /// The line, counted from 1
        line: usize,
        /// The number of its fields
        fields: usize,
        /// What it lacks
        wanted: Wanted,
    },
    /// The record that begins on this line has more bytes than it may have
    Long {
        /// The line, counted from 1
        line: usize,
        /// How many it may have
        limit: usize,
    },
    /// This byte order mark stands before the first record
    Marked(Mark),
    /// Memory was refused, or reading or writing failed
    Stopped(Trouble),
}

impl Failure {
    /// Returns the exit status for this failure.
    pub fn status(&self) -> u8
        ensures { result ≡ status_of self.now }
    {
        match self {
            Failure::Damaged { .. } => 2,
            Failure::Uneven { .. } => 2,
            Failure::Long { .. } => 2,
            Failure::Marked(_) => 2,
            Failure::Stopped(trouble) => trouble.status(),
        }
    }

    /// Returns the place of the failure, if it is one of the input.
    pub fn position(&self) -> Option<Position> {
        match self {
            Failure::Damaged { position, .. } => Some(*position),
            Failure::Uneven { line, .. } => Some(Position {
                line: *line,
                column: 1,
            }),
            Failure::Long { line, .. } => Some(Position {
                line: *line,
                column: 1,
            }),
            Failure::Marked(_) => Some(Position { line: 1, column: 1 }),
            Failure::Stopped(_) => None,
        }
    }

    /// Returns the line of the place, if it is kept.
    pub fn excerpt(&self) -> Option<&Excerpt> {
        match self {
            Failure::Damaged { excerpt, .. } => excerpt.as_ref(),
            _ => None,
        }
    }
}

// Returns what a delimiter is called.
fn delimiter_name(delimiter: u8) -> &'static str
    ensures { result.now ≡ delimiter_name delimiter }
{
    if delimiter == b',' {
        return "a comma";
    }
    "the delimiter"
}

impl fmt::Display for Fault {
    ghost output = { λ fault. Some (fault_text fault) };

    fn fmt<W: fmt::Write>(&self, f: &mut fmt::Formatter<W>) -> fmt::Result {
        match self {
            Fault::Unclosed => write!(f, "the input ends inside a quoted field"),
            Fault::QuoteInside => write!(f, "a quote inside a field that does not begin with one"),
            Fault::LoneReturn => write!(f, "a carriage return with no line feed after it"),
            Fault::AfterQuote(delimiter) => {
                let name = delimiter_name(*delimiter);
                write!(f, "neither {name} nor a line end follows the closing quote")
            }
        }
    }
}

impl fmt::Display for Wanted {
    ghost output = { λ wanted. Some (wanted_text wanted) };

    fn fmt<W: fmt::Write>(&self, f: &mut fmt::Formatter<W>) -> fmt::Result {
        match self {
            Wanted::First(first) => write!(f, "but the first record has {first}"),
            Wanted::Column(column) => write!(f, "but column {column} is chosen"),
            Wanted::Text => write!(f, "and one is no UTF-8"),
        }
    }
}

impl fmt::Display for Failure {
    ghost output = { λ failure. Some (failure_text failure) };

    fn fmt<W: fmt::Write>(&self, f: &mut fmt::Formatter<W>) -> fmt::Result {
        match self {
            Failure::Damaged { fault, .. } => write!(f, "{fault}"),
            Failure::Uneven { fields, wanted, .. } => write!(f, "{fields} fields, {wanted}"),
            Failure::Long { limit, .. } => write!(f, "the record has more than {limit} bytes"),
            Failure::Marked(mark) => write!(f, "{mark}"),
            Failure::Stopped(trouble) => write!(f, "{trouble}"),
        }
    }
}

impl From<AllocError> for Failure {
    ghost from_gives = { λ _ failure. failure ≡ Stopped OutOfMemory };

    fn from(refused: AllocError) -> Failure {
        Failure::Stopped(Trouble::from(refused))
    }
}
