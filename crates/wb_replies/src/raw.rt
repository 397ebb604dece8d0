//! A reply as its text stands.

ghost use Rattle.std.specs.Prelude.{◌≡◌, ◌++◌, OnOk, OnErr};
ghost use Rattle.std.specs.Fmt.{signed_decimal};
ghost use Rattle.wb_replies.specs.Raw.{raw, separator};

use crate::lines::append_line;
use format_resp::Reply;
use itoa::Buffer;
use std::alloc::AllocError;

/// Appends the text of a reply. When memory is refused, the text is what it was.
///
/// Calls are nested as deep as the arrays of the reply.
pub fn append_raw(reply: &Reply, text: &mut Vec<u8>) -> Result<(), AllocError>
    ensures raw { OnOk result (text.new.items ≡ text.old.items ++ raw reply.now) }
    ensures refused { OnErr result (text.new.items ≡ text.old.items) }
{
    // It is made in memory of its own, so a refusal leaves the text as it was.
    let mut own = Vec::new(*text.allocator());
    append_text(reply, &mut own)?;
    text.extend_from_slice(&own)?;
    Ok(())
}

// Appends the text of a reply.
fn append_text(reply: &Reply, text: &mut Vec<u8>) -> Result<(), AllocError>
    ensures { OnOk result (text.new.items ≡ text.old.items ++ raw reply.now) }
{
    match reply {
        Reply::Simple(line) => append_bytes(line, text),
        Reply::Error(line) => append_line(b"", line, text),
        Reply::Integer(number) => append_number(*number, text),
        Reply::Bulk(held) => append_bytes(held, text),
        Reply::NullBulk => Ok(()),
        Reply::Array(replies) => {
            for (index, one) in replies.iter().enumerate() {
                append_separator(index, text)?;
                append_text(one, text)?;
            }
            Ok(())
        }
        Reply::NullArray => Ok(()),
    }
}

/// Appends bytes.
pub fn append_bytes(bytes: &[u8], text: &mut Vec<u8>) -> Result<(), AllocError>
    ensures { OnOk result (text.new.items ≡ text.old.items ++ bytes.now) }
{
    text.extend_from_slice(bytes)?;
    Ok(())
}

/// Appends the digits of an integer.
pub fn append_number(number: i64, text: &mut Vec<u8>) -> Result<(), AllocError>
    ensures { OnOk result (text.new.items ≡ text.old.items ++ signed_decimal number) }
{
    let mut digits = Buffer::new();
    append_bytes(digits.format(number).as_bytes(), text)
}

/// Appends what stands before the text at this index of a list: a line feed, but for the first.
pub fn append_separator(index: usize, text: &mut Vec<u8>) -> Result<(), AllocError>
    ensures { OnOk result (text.new.items ≡ text.old.items ++ separator index) }
{
    if index == 0 {
        return Ok(());
    }
    text.push(b'\n')?;
    Ok(())
}
