//! Filling a record with the first one of some bytes.

ghost use Rattle.std.specs.Prelude.{◌≡◌, ◌≢◌, [], true, IfOk};
ghost use Rattle.format_lemmas.specs.Bytes.{StartsWith};
ghost use Rattle.csv.specs.Records.{fields_of};
ghost use Rattle.format_csv.specs.Filling.{Follows, Fills};

use crate::filling_fields::read_field;
use csv::ByteRecord;
use std::alloc::AllocError;

/// What some bytes begin with.
#[derive(Clone, Copy, Debug, Drop)]
pub(crate) enum Found {
    /// A record, which is this long with its end
    Record(usize),
    /// A record that has not ended
    NeedsMore,
    /// A record that is damaged at this offset
    Damaged(usize),
}

/// What follows a field.
#[derive(Clone, Copy, Debug, Drop)]
pub(crate) enum Follow {
    /// A comma
    Comma,
    /// The end of the record, which is this long
    End(usize),
    /// Too little to tell
    Open,
    /// Something that cannot follow
    Broken,
}

// Fills the record with the one with which the bytes begin. At the end of the input there must be
// some.
pub(crate) fn fill(
    bytes: &[u8],
    ended: bool,
    row: &mut ByteRecord,
    value: &mut Vec<u8>,
) -> Result<Found, AllocError>
    requires { ended ≡ true → bytes.now ≢ [] }
    ensures { IfOk result (λ found. Fills ended bytes.now found (fields_of row.new)) }
{
    row.clear();
    let mut at = 0;
    loop {
        let Some(length) = read_field(&bytes[at..], row, value)? else {
            if ended {
                return Ok(Found::Damaged(bytes.len()));
            }
            return Ok(Found::NeedsMore);
        };
        at += length;
        match what_follows(&bytes[at..], ended) {
            Follow::Comma => at += 1,
            Follow::End(length) => return Ok(Found::Record(at + length)),
            Follow::Open => return Ok(Found::NeedsMore),
            Follow::Broken => return Ok(Found::Damaged(at)),
        }
    }
}

// Returns what the bytes after a field begin with.
fn what_follows(rest: &[u8], ended: bool) -> Follow
    ensures { Follows ended rest.now result }
{
    if rest.is_empty() {
        return if ended { Follow::End(0) } else { Follow::Open };
    }
    match rest[0] {
        b',' => Follow::Comma,
        b'\n' => Follow::End(1),
        b'\r' => after_return(rest, ended),
        _ => Follow::Broken,
    }
}

// Returns what bytes are that begin with CR.
fn after_return(rest: &[u8], ended: bool) -> Follow
    requires { StartsWith 13 rest.now }
    ensures { Follows ended rest.now result }
{
    if rest.len() == 1 {
        return if ended { Follow::Broken } else { Follow::Open };
    }
    if rest[1] == b'\n' {
        Follow::End(2)
    } else {
        Follow::Broken
    }
}
