//! Lines and columns of an input.

ghost use Rattle.std.specs.Prelude.{Some, ◌≡◌, ◌+◌, ◌<◌, ◌^◌, length};
ghost use Rattle.wb_base.specs.Positions.{line_feeds, is_inside, after_feed, position_text};

use std::fmt;

/// A place in an input, both counted from 1.
#[derive(Clone, Copy, Debug, Drop, PartialEq, Eq)]
pub struct Position {
    /// The line
    pub line: usize,
    /// The character in its line
    pub column: usize,
}

impl fmt::Display for Position {
    ghost output = { λ position. Some (position_text position) };

    fn fmt<W: fmt::Write>(&self, f: &mut fmt::Formatter<W>) -> fmt::Result {
        write!(f, "{}:{}", self.line, self.column)
    }
}

/// Returns how many line feeds these bytes have.
pub fn line_feeds(bytes: &[u8]) -> usize
    ensures { result ≡ line_feeds bytes.now }
{
    bytes.iter().filter(|byte| **byte == b'\n').count()
}

// Returns whether a byte goes on with a character of UTF-8.
pub(crate) fn is_inside(byte: u8) -> bool
    ensures { result ≡ is_inside byte }
{
    127 < byte && byte < 192
}

/// Returns the position after this text, which begins a line after this number of line feeds. A
/// byte that goes on with a character of UTF-8 is no column of its own.
pub fn position_after(feeds: usize, text: &[u8]) -> Position
    requires { feeds + length text.now + 1 < 2 ^ 64 }
    ensures line { result.line ≡ 1 + (feeds + line_feeds text.now) }
    ensures column { result.column ≡ 1 + after_feed text.now }
{
    let mut line = feeds + 1;
    let mut column = 1;
    for byte in text {
        if *byte == b'\n' {
            line += 1;
            column = 1;
        } else if !is_inside(*byte) {
            column += 1;
        }
    }
    Position { line, column }
}
