//! Lines and columns of the input.

ghost use Rattle.std.specs.Prelude.{Some, ◌≡◌, ◌+◌, ◌<◌, ◌^◌, length};
ghost use Rattle.example_csv.specs.Positions.{line_feeds, after_feed, feeds_of, position_text};

use std::fmt;

/// A place in the input, both counted from 1.
#[derive(Clone, Copy, Debug, Drop, PartialEq, Eq)]
pub struct Position {
    /// The line
    pub line: usize,
    /// The byte in its line
    pub column: usize,
}

impl fmt::Display for Position {
    ghost output = { λ position. Some (position_text position) };

    fn fmt<W: fmt::Write>(&self, f: &mut fmt::Formatter<W>) -> fmt::Result {
        write!(f, "line {}, column {}", self.line, self.column)
    }
}

/// Returns how many line feeds these bytes have.
pub fn line_feeds(bytes: &[u8]) -> usize
    ensures { result ≡ line_feeds bytes.now }
{
    bytes.iter().filter(|byte| **byte == b'\n').count()
}

/// Returns how many line feeds a record takes: those in its fields, and the one at its end.
pub fn line_feeds_of(fields: &[Vec<u8>]) -> usize
    requires { feeds_of fields.now < 2 ^ 64 }
    ensures { result ≡ feeds_of fields.now }
{
    let mut count = 1;
    for field in fields {
        count += line_feeds(field);
    }
    count
}

/// Returns the position after this text, which begins a line after this number of line feeds.
pub fn position_after(feeds: usize, text: &[u8]) -> Position
    requires { feeds + length text.now + 1 < 2 ^ 64 }
    ensures line { result.line ≡ 1 + (feeds + line_feeds text.now) }
    ensures column { result.column ≡ 1 + after_feed text.now }
{
    let mut line = feeds + 1;
    let mut column = 1;
    for byte in text {
        if *byte == b'\n' {
            line += 1;
            column = 1;
        } else {
            column += 1;
        }
    }
    Position { line, column }
}
