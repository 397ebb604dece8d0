//! A reply as `redis-cli` prints it to a terminal.

ghost use Rattle.std.specs.Prelude.{◌≡◌, [], ◌++◌, OnOk, OnErr};
ghost use Rattle.wb_replies.specs.Printing.{shown};

use crate::lines::{
    append_entry_start, append_integer, append_line, append_quoted, digits_of, widened,
};
use format_resp::Reply;
use std::alloc::AllocError;

/// Appends the lines that show a reply. When memory is refused, the text is what it was.
///
/// Calls are nested as deep as the arrays of the reply.
pub fn append_reply(reply: &Reply, text: &mut Vec<u8>) -> Result<(), AllocError>
    ensures shown { OnOk result (text.new.items ≡ text.old.items ++ shown reply.now []) }
    ensures refused { OnErr result (text.new.items ≡ text.old.items) }
{
    // The lines are made in memory of their own, so a refusal leaves the text as it was.
    let mut lines = Vec::new(*text.allocator());
    append_after(b"", reply, &mut lines)?;
    text.extend_from_slice(&lines)?;
    Ok(())
}

// Appends the lines that show a reply. The first line goes on where the text ends, and the margin
// stands before each of the others.
fn append_after(margin: &[u8], reply: &Reply, text: &mut Vec<u8>) -> Result<(), AllocError>
    ensures { OnOk result (text.new.items ≡ text.old.items ++ shown reply.now margin.now) }
{
    match reply {
        Reply::Simple(line) => append_line(b"", line, text),
        Reply::Error(line) => append_line(b"(error) ", line, text),
        Reply::Integer(number) => append_integer(*number, text),
        Reply::Bulk(held) => append_quoted(held, text),
        Reply::NullBulk => append_line(b"", b"(nil)", text),
        Reply::Array(replies) => {
            if replies.is_empty() {
                return append_line(b"", b"(empty array)", text);
            }
            let width = digits_of(replies.len());
            let inner = widened(*text.allocator(), margin, width + 2)?;
            for (index, one) in replies.iter().enumerate() {
                append_entry_start(b')', margin, width, index, text)?;
                append_after(&inner, one, text)?;
            }
            Ok(())
        }
        Reply::NullArray => append_line(b"", b"(nil)", text),
    }
}
