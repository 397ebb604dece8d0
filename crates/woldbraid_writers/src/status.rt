//! `Status`: what came of a call.

ghost use Rattle.std.specs.Prelude.{◌≡◌};
ghost use Rattle.woldbraid_writers.specs.Codes.{status_code};

/// What came of a call.
#[derive(Clone, Copy, Debug, Drop, PartialEq, Eq)]
pub enum Status {
    /// The call did what it is for
    Ok,
    /// Memory was refused, and nothing is lost: the call may be made again
    Refused,
    /// Nothing was written: what the call writes may not come next
    Unexpected,
    /// Nothing was written: a value would stand within too many arrays and objects
    TooDeep,
    /// Nothing was written: the writer is that of another format
    OtherFormat,
    /// Nothing was written: the text is no number of JSON
    NoNumber,
    /// Nothing was written: the bytes are no UTF-8
    BadUtf8,
    /// Nothing was written: a text of a line has CR or LF
    LineEnd,
}

impl Status {
    /// Returns the number that C knows it by. The numbers are those of the readers' statuses, where
    /// these have the status.
    pub fn code(self) -> u32
        ensures { result ≡ status_code self }
    {
        match self {
            Status::Ok => 0,
            Status::Refused => 6,
            Status::Unexpected => 8,
            Status::TooDeep => 9,
            Status::OtherFormat => 11,
            Status::NoNumber => 12,
            Status::BadUtf8 => 13,
            Status::LineEnd => 14,
        }
    }
}
