//! Looking for a field and its ending within a limit.

ghost use Rattle.std.specs.Prelude.{◌≤◌, length as len};
ghost use Rattle.format_csv_fields.specs.Looking.{IsText};
ghost use Rattle.format_csv_fields.specs.Finding.{Finds, FindsAfter};

use crate::after::{After, Ending, what_follows};
use crate::looking::Text;

/// What some bytes begin with.
#[derive(Clone, Copy, Debug, Drop)]
pub(crate) enum Found {
    /// A field with this ending, and its length with the ending
    Field(Ending, usize),
    /// A field that has not ended
    NeedsMore,
    /// A field that is damaged at this offset
    Damaged(usize),
    /// A field that is too long
    TooLong,
}

// Returns what the bytes are of which this is the text.
pub(crate) fn find(bytes: &[u8], text: Text, ended: bool, limit: usize) -> Found
    requires { IsText bytes.now text }
    ensures { Finds ended limit bytes.now text result }
{
    match text {
        Text::Plain(length) => find_ending(bytes, length, ended, limit),
        Text::Quoted(close, _) => find_ending(bytes, close + 1, ended, limit),
        Text::Open(_) => {
            if bytes.len() > limit {
                return Found::TooLong;
            }
            if ended {
                Found::Damaged(bytes.len())
            } else {
                Found::NeedsMore
            }
        }
    }
}

// Returns what the bytes are after a text of this length.
fn find_ending(bytes: &[u8], length: usize, ended: bool, limit: usize) -> Found
    requires { length ≤ len bytes.now }
    ensures { FindsAfter ended limit bytes.now length result }
{
    if length > limit {
        return Found::TooLong;
    }
    match what_follows(&bytes[length..], ended) {
        After::Ends(ending, more) => Found::Field(ending, length + more),
        After::Open => Found::NeedsMore,
        After::Broken => Found::Damaged(length),
    }
}
