//! What ends a field.

ghost use Rattle.std.specs.Prelude.{◌≡◌};
ghost use Rattle.format_lemmas.specs.Bytes.{StartsWith};
ghost use Rattle.format_csv_fields.specs.FieldAhead.{Follows};
ghost use Rattle.format_csv_fields.specs.Reading.{is_comma as comma};

/// What ended a field.
#[derive(Clone, Copy, Debug, Drop, PartialEq, Eq)]
pub enum Ending {
    /// A comma: another field of the record follows
    Comma,
    /// The end of the record: the field was its last
    Record,
}

/// What follows the text of a field.
#[derive(Clone, Copy, Debug, Drop)]
pub(crate) enum After {
    /// An ending, which is this long
    Ends(Ending, usize),
    /// Too little to tell
    Open,
    /// Something that cannot follow
    Broken,
}

// Returns whether a comma ended the field.
pub(crate) fn is_comma(ending: Ending) -> bool
    ensures { result ≡ comma ending }
{
    matches!(ending, Ending::Comma)
}

// Returns what the bytes after the text of a field begin with.
pub(crate) fn what_follows(rest: &[u8], ended: bool) -> After
    ensures { Follows ended rest.now result }
{
    if rest.is_empty() {
        return if ended {
            After::Ends(Ending::Record, 0)
        } else {
            After::Open
        };
    }
    match rest[0] {
        b',' => After::Ends(Ending::Comma, 1),
        b'\n' => After::Ends(Ending::Record, 1),
        b'\r' => after_return(rest, ended),
        _ => After::Broken,
    }
}

// Returns what bytes are that begin with CR.
fn after_return(rest: &[u8], ended: bool) -> After
    requires { StartsWith 13 rest.now }
    ensures { Follows ended rest.now result }
{
    if rest.len() == 1 {
        return if ended { After::Broken } else { After::Open };
    }
    if rest[1] == b'\n' {
        After::Ends(Ending::Record, 2)
    } else {
        After::Broken
    }
}
