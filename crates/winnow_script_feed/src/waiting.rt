//! `Waiting`, the input that a feed waits for.

/// What a feed waits for.
#[derive(Debug, Drop, PartialEq, Eq)]
pub enum Waiting<P> {
    /// No piece was fed.
    NotFed,
    /// Each step is answered.
    NotWaiting,
    /// Appending this changes the next step's answer.
    Until(P),
    /// The next step looks for a token of a set that holds none: only the end answers it.
    ToEnd,
}
