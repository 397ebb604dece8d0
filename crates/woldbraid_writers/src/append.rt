//! What the writers append, part by part.

ghost use Rattle.std.specs.Prelude.{◌≡◌, ◌∷◌, ◌++◌, [], OnOk, OnErr};
ghost use Rattle.format_json_scalars.specs.Quoting.{written_string, Extends};
ghost use Rattle.woldbraid_writers.specs.Drafts.{comma_before};

use crate::due::Due;
use format_json_scalars::append_string;
use std::alloc::AllocError;

// Appends the comma that stands before what comes, if one does.
fn append_comma(due: Due, bytes: &mut Vec<u8>) -> Result<(), AllocError>
    ensures written { OnOk result (bytes.new.items ≡ bytes.old.items ++ comma_before due) }
    ensures refused { OnErr result (bytes.new.items ≡ bytes.old.items) }
{
    if due.needs_comma() {
        bytes.push(b',')?;
    }
    Ok(())
}

// Appends a text after its comma, or a prefix of that if memory is refused.
fn append_text(due: Due, text: &[u8], bytes: &mut Vec<u8>) -> Result<(), AllocError>
    ensures written { OnOk result (bytes.new.items
        ≡ bytes.old.items ++ (comma_before due ++ text.now)) }
    ensures refused { OnErr result (Extends bytes.old.items bytes.new.items) }
{
    append_comma(due, bytes)?;
    bytes.extend_from_slice(text)?;
    Ok(())
}

// Appends a string after its comma, or a prefix of that if memory is refused.
fn append_quoted(due: Due, text: &str, bytes: &mut Vec<u8>) -> Result<(), AllocError>
    ensures written { OnOk result (bytes.new.items
        ≡ bytes.old.items ++ (comma_before due ++ written_string text.now)) }
    ensures refused { OnErr result (Extends bytes.old.items bytes.new.items) }
{
    append_comma(due, bytes)?;
    append_string(text, bytes)?;
    Ok(())
}

// Appends a name after its comma and a colon after it, or a prefix of that if memory is refused.
fn append_name(due: Due, text: &str, bytes: &mut Vec<u8>) -> Result<(), AllocError>
    ensures written { OnOk result (bytes.new.items
        ≡ bytes.old.items ++ (comma_before due ++ (written_string text.now ++ 58 ∷ []))) }
    ensures refused { OnErr result (Extends bytes.old.items bytes.new.items) }
{
    append_quoted(due, text, bytes)?;
    bytes.push(b':')?;
    Ok(())
}

/// Appends a text after its comma. When memory is refused, the bytes are what they were.
pub(crate) fn write_text(due: Due, text: &[u8], bytes: &mut Vec<u8>) -> Result<(), AllocError>
    ensures written { OnOk result (bytes.new.items
        ≡ bytes.old.items ++ (comma_before due ++ text.now)) }
    ensures refused { OnErr result (bytes.new.items ≡ bytes.old.items) }
{
    let length = bytes.len();
    match append_text(due, text, bytes) {
        Ok(()) => Ok(()),
        Err(refused) => {
            bytes.truncate(length);
            Err(refused)
        }
    }
}

/// Appends a string after its comma. When memory is refused, the bytes are what they were.
pub(crate) fn write_quoted(due: Due, text: &str, bytes: &mut Vec<u8>) -> Result<(), AllocError>
    ensures written { OnOk result (bytes.new.items
        ≡ bytes.old.items ++ (comma_before due ++ written_string text.now)) }
    ensures refused { OnErr result (bytes.new.items ≡ bytes.old.items) }
{
    let length = bytes.len();
    match append_quoted(due, text, bytes) {
        Ok(()) => Ok(()),
        Err(refused) => {
            bytes.truncate(length);
            Err(refused)
        }
    }
}

/// Appends a name after its comma, and a colon after it. When memory is refused, the bytes are what
/// they were.
pub(crate) fn write_name(due: Due, text: &str, bytes: &mut Vec<u8>) -> Result<(), AllocError>
    ensures written { OnOk result (bytes.new.items
        ≡ bytes.old.items ++ (comma_before due ++ (written_string text.now ++ 58 ∷ []))) }
    ensures refused { OnErr result (bytes.new.items ≡ bytes.old.items) }
{
    let length = bytes.len();
    match append_name(due, text, bytes) {
        Ok(()) => Ok(()),
        Err(refused) => {
            bytes.truncate(length);
            Err(refused)
        }
    }
}
