//! A reply of version 3 as its text stands.

ghost use Rattle.std.specs.Prelude.{◌≡◌, ◌++◌, map, OnOk, OnErr};
ghost use Rattle.wb_replies.specs.Raw.{raw_entries};
ghost use Rattle.wb_replies3.specs.Printing.{truth_text};
ghost use Rattle.wb_replies3.specs.Raw.{raw, raw_pair};

use format_resp3::Reply;
use std::alloc::AllocError;
use wb_replies::{append_bytes, append_line, append_number, append_separator};

/// Appends the text of a reply. When memory is refused, the text is what it was.
///
/// Calls are nested as deep as the arrays, sets, pushes and maps of the reply and its attributes.
pub fn append_raw(reply: &Reply, text: &mut Vec<u8>) -> Result<(), AllocError>
    ensures raw { OnOk result (text.new.items ≡ text.old.items ++ raw reply.now) }
    ensures refused { OnErr result (text.new.items ≡ text.old.items) }
{
    // It is made in memory of its own, so a refusal leaves the text as it was.
    let mut own = Vec::new(*text.allocator());
    append_text(reply, &mut own)?;
    text.extend_from_slice(&own)?;
    Ok(())
}

// Appends the text of a reply.
#[cycle(raw)]
fn append_text(reply: &Reply, text: &mut Vec<u8>) -> Result<(), AllocError>
    ensures { OnOk result (text.new.items ≡ text.old.items ++ raw reply.now) }
{
    match reply {
        Reply::Simple(line) => append_bytes(line, text),
        Reply::Error(line) => append_line(b"", line, text),
        Reply::Integer(number) => append_number(*number, text),
        Reply::Bulk(held) => append_bytes(held, text),
        Reply::NullBulk => Ok(()),
        Reply::Array(replies) => append_texts(replies, text),
        Reply::NullArray => Ok(()),
        Reply::Null => Ok(()),
        Reply::Boolean(truth) => append_truth_word(*truth, text),
        Reply::Double(number) => append_bytes(number, text),
        Reply::BigNumber(number) => append_bytes(number, text),
        Reply::BulkError(line) => append_line(b"", line, text),
        Reply::Verbatim(_, held) => append_bytes(held, text),
        Reply::Map(pairs) => append_text_pairs(pairs, text),
        Reply::Set(replies) => append_texts(replies, text),
        Reply::Push(replies) => append_texts(replies, text),
        Reply::Attributed(_, described) => append_text(described, text),
    }
}

// Appends a truth value.
fn append_truth_word(truth: bool, text: &mut Vec<u8>) -> Result<(), AllocError>
    ensures { OnOk result (text.new.items ≡ text.old.items ++ truth_text truth) }
{
    if truth {
        return append_bytes(b"(true)", text);
    }
    append_bytes(b"(false)", text)
}

// Appends the texts of replies, each after the first in a line of its own.
#[cycle(raw)]
fn append_texts(replies: &[Reply], text: &mut Vec<u8>) -> Result<(), AllocError>
    ensures { OnOk result (text.new.items
        ≡ text.old.items ++ raw_entries 0 (map raw replies.now)) }
{
    for (index, one) in replies.iter().enumerate() {
        append_separator(index, text)?;
        append_text(one, text)?;
    }
    Ok(())
}

// Appends the texts of keys and their values, each pair after the first in a line of its own.
#[cycle(raw)]
fn append_text_pairs(pairs: &[(Reply, Reply)], text: &mut Vec<u8>) -> Result<(), AllocError>
    ensures { OnOk result (text.new.items
        ≡ text.old.items ++ raw_entries 0 (map raw_pair pairs.now)) }
{
    for (index, pair) in pairs.iter().enumerate() {
        append_separator(index, text)?;
        append_text(&pair.0, text)?;
        append_bytes(b" ", text)?;
        append_text(&pair.1, text)?;
    }
    Ok(())
}
