//! `Status`: what came of a call.

ghost use Rattle.std.specs.Prelude.{◌≡◌};
ghost use Rattle.woldbraid_readers.specs.Codes.{status_code};

/// What came of a call.
#[derive(Clone, Copy, Debug, Drop, PartialEq, Eq)]
pub enum Status {
    /// The call did what it is for: what was read is there, or the piece was taken
    Ok,
    /// The input is read to its end
    Done,
    /// Bytes are awaited that were not pushed yet
    NeedsMore,
    /// Nothing was pushed: more bytes wait to be read than the reader may keep
    Full,
    /// Nothing was pushed: the input has ended
    Ended,
    /// Nothing was pushed: the joined input would have 2^64 bytes or more
    TooLong,
    /// Memory was refused, and nothing is lost: the call may be made again
    Refused,
    /// The input is damaged at a place
    Damaged,
    /// A token stands at a place where it may not
    Unexpected,
    /// A value stands at a place within too many arrays and objects
    TooDeep,
    /// The input ends before the text does
    EndsEarly,
    /// The reader is that of another format
    OtherFormat,
}

impl Status {
    /// Returns the number that C knows it by.
    pub fn code(self) -> u32
        ensures { result ≡ status_code self }
    {
        match self {
            Status::Ok => 0,
            Status::Done => 1,
            Status::NeedsMore => 2,
            Status::Full => 3,
            Status::Ended => 4,
            Status::TooLong => 5,
            Status::Refused => 6,
            Status::Damaged => 7,
            Status::Unexpected => 8,
            Status::TooDeep => 9,
            Status::EndsEarly => 10,
            Status::OtherFormat => 11,
        }
    }
}
