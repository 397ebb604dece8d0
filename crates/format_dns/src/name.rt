//! A name as a message spells it: `Name`.

/// What ends the labels of a name (section 4.1.4).
#[derive(Clone, Copy, Debug, Drop, PartialEq, Eq)]
pub enum Ending {
    /// The root
    Root,
    /// The name goes on where the message has it before, so many bytes from its start, below 2^14
    Pointer(u16),
}

/// A name as a message spells it: its labels, and what ends them (sections 3.1 and 4.1.4).
///
/// [`expand`](crate::expand) follows a pointer. Two names that are spelled otherwise may be the
/// same domain.
#[derive(Debug, Drop)]
pub struct Name {
    /// The labels, each of 1 to 63 bytes; at most 127
    pub labels: Vec<Vec<u8>>,
    /// What ends them
    pub ending: Ending,
}
