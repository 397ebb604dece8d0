//! The reasons why an error is not recorded: `RecordError`.

/// The reason why an error was not recorded. The error comes back, and nothing has changed.
#[derive(Debug, Drop, PartialEq, Eq)]
pub enum RecordError<E> {
    /// The stream does not record this error
    Refused(E),
    /// There was no memory for it
    OutOfMemory(E),
}
