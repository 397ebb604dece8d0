//! What is to be read and written.

/// How events are written.
#[derive(Clone, Copy, Debug, Drop, PartialEq, Eq)]
pub enum Layout {
    /// Each value as an assignment to its path
    Assignments,
    /// Each text as one line, without blanks
    Values,
    /// Not at all
    Nothing,
}

/// What is read, and how it is written.
#[derive(Clone, Copy, Debug, Drop)]
pub struct Settings {
    /// How events are written
    pub layout: Layout,
    /// Whether each line of the input is a text of its own
    pub by_lines: bool,
    /// Within how many arrays and objects a value may stand
    pub depth: usize,
    /// The most bytes of a token
    pub limit: usize,
}
