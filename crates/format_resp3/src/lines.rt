//! The first line of a reply: the byte of its kind, and a text.

ghost use Rattle.std.specs.Prelude.{◌≡◌, ◌∷◌, ◌++◌, true, OnOk};
ghost use Rattle.format_resp3.specs.Replies.{is_kind, line_limit, SpellsFirst};
ghost use Rattle.format_resp3.specs.Replies.{line_end};
ghost use Rattle.format_resp3.specs.Exchange.{Appends};

use crate::texts::has_line_end;
use std::alloc::AllocError;
use winnow_codec::Unwritten;

// The digits of the greatest number of 64 bits.
const MOST_DIGITS: usize = 20;

// Returns the greatest number of bytes in a line.
fn line_limit(longest: usize) -> usize
    ensures { result ≡ line_limit longest }
{
    if longest < MOST_DIGITS {
        MOST_DIGITS
    } else {
        longest
    }
}

// Appends a byte, a text and a line end.
fn append_line(kind: u8, text: &[u8], bytes: &mut Vec<u8>) -> Result<(), AllocError>
    ensures { OnOk result (
        bytes.new.items ≡ bytes.old.items ++ kind ∷ (text.now ++ line_end)) }
{
    bytes.push(kind)?;
    bytes.extend_from_slice(text)?;
    bytes.extend_from_slice(b"\r\n")?;
    Ok(())
}

// Appends the byte of a kind, and a line.
pub(crate) fn append_first(
    longest: usize,
    kind: u8,
    text: &[u8],
    bytes: &mut Vec<u8>,
) -> Result<(), Unwritten>
    requires { is_kind kind ≡ true }
    ensures { Appends (SpellsFirst longest) (kind, text.now) bytes.old.items result
        bytes.new.items }
{
    if has_line_end(text) || line_limit(longest) < text.len() {
        return Err(Unwritten::Unspelled);
    }
    match append_line(kind, text, bytes) {
        Ok(()) => Ok(()),
        Err(refused) => Err(Unwritten::Refused(refused)),
    }
}
