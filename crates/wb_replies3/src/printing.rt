//! A reply of version 3 as `redis-cli` prints it to a terminal.

ghost use Rattle.std.specs.Prelude.{◌≡◌, [], ◌++◌, List, ℕ, map, codes, OnOk, OnErr};
ghost use Rattle.wb_replies.specs.Lines.{line_of, list_shown};
ghost use Rattle.wb_replies3.specs.Printing.{shown, shown_pair, without_last, break_before};
ghost use Rattle.wb_replies3.specs.Printing.{truth_text};

use crate::breaking::breaks;
use format_resp3::Reply;
use std::alloc::AllocError;
use wb_replies::{
    append_entry_start, append_integer, append_line, append_quoted, digits_of, widened,
};

/// Appends the lines that show a reply. When memory is refused, the text is what it was.
///
/// Calls are nested as deep as the arrays, sets, pushes and maps of the reply and its attributes.
pub fn append_reply(reply: &Reply, text: &mut Vec<u8>) -> Result<(), AllocError>
    ensures shown { OnOk result (text.new.items ≡ text.old.items ++ shown reply.now []) }
    ensures refused { OnErr result (text.new.items ≡ text.old.items) }
{
    // The lines are made in memory of their own, so a refusal leaves the text as it was.
    let mut lines = Vec::new(*text.allocator());
    append_after(b"", reply, &mut lines)?;
    text.extend_from_slice(&lines)?;
    Ok(())
}

// Appends the lines that show a reply. The first line goes on where the text ends, and the margin
// stands before each of the others.
#[cycle(printing)]
fn append_after(margin: &[u8], reply: &Reply, text: &mut Vec<u8>) -> Result<(), AllocError>
    ensures { OnOk result (text.new.items ≡ text.old.items ++ shown reply.now margin.now) }
{
    match reply {
        Reply::Simple(line) => append_line(b"", line, text),
        Reply::Error(line) => append_line(b"(error) ", line, text),
        Reply::Integer(number) => append_integer(*number, text),
        Reply::Bulk(held) => append_quoted(held, text),
        Reply::NullBulk => append_line(b"", b"(nil)", text),
        Reply::Array(replies) => append_list(b')', b"(empty array)", margin, replies, text),
        Reply::NullArray => append_line(b"", b"(nil)", text),
        Reply::Null => append_line(b"", b"(nil)", text),
        Reply::Boolean(truth) => append_truth(*truth, text),
        Reply::Double(number) => append_line(b"(double) ", number, text),
        Reply::BigNumber(number) => append_line(b"(big number) ", number, text),
        Reply::BulkError(line) => append_line(b"(error) ", line, text),
        Reply::Verbatim(_, held) => append_line(b"", held, text),
        Reply::Map(pairs) => append_pairs(margin, pairs, text),
        Reply::Set(replies) => append_list(b'~', b"(empty set)", margin, replies, text),
        Reply::Push(replies) => append_list(b')', b"(empty push)", margin, replies, text),
        Reply::Attributed(_, described) => append_after(margin, described, text),
    }
}

// Appends a line with a truth value.
fn append_truth(truth: bool, text: &mut Vec<u8>) -> Result<(), AllocError>
    ensures { OnOk result (text.new.items ≡ text.old.items ++ line_of [] (truth_text truth)) }
{
    if truth {
        return append_line(b"", b"(true)", text);
    }
    append_line(b"", b"(false)", text)
}

// Appends replies with their numbers, each with the mark after it; or this line, if there are none.
#[cycle(printing)]
fn append_list(
    mark: u8,
    empty: &[u8],
    margin: &[u8],
    replies: &[Reply],
    text: &mut Vec<u8>,
) -> Result<(), AllocError>
    ensures { OnOk result (text.new.items
        ≡ text.old.items ++ list_shown mark empty.now margin.now (map shown replies.now)) }
{
    if replies.is_empty() {
        return append_line(b"", empty, text);
    }
    let width = digits_of(replies.len());
    let inner = widened(*text.allocator(), margin, width + 2)?;
    for (index, one) in replies.iter().enumerate() {
        append_entry_start(mark, margin, width, index, text)?;
        append_after(&inner, one, text)?;
    }
    Ok(())
}

// Appends keys with their values and their numbers.
#[cycle(printing)]
fn append_pairs(
    margin: &[u8],
    pairs: &[(Reply, Reply)],
    text: &mut Vec<u8>,
) -> Result<(), AllocError>
    ensures { OnOk result (text.new.items ≡ text.old.items
        ++ list_shown 35 (codes "(empty hash)") margin.now (map shown_pair pairs.now)) }
{
    if pairs.is_empty() {
        return append_line(b"", b"(empty hash)", text);
    }
    let width = digits_of(pairs.len());
    let inner = widened(*text.allocator(), margin, width + 2)?;
    for (index, pair) in pairs.iter().enumerate() {
        append_entry_start(b'#', margin, width, index, text)?;
        let mut key = Vec::new(*text.allocator());
        append_after(&inner, &pair.0, &mut key)?;
        append_key(&key, text)?;
        append_break(breaks(&pair.1), &inner, text)?;
        append_after(&inner, &pair.1, text)?;
    }
    Ok(())
}

// Appends the lines of a key, of which the last goes on with the value.
fn append_key(key: &[u8], text: &mut Vec<u8>) -> Result<(), AllocError>
    ensures { OnOk result (text.new.items
        ≡ text.old.items ++ without_last key.now ++ codes " => ") }
{
    text.extend_from_slice(&key[..key.len().saturating_sub(1)])?;
    text.extend_from_slice(b" => ")?;
    Ok(())
}

// Begins a line with this margin, if one is due.
fn append_break(is_due: bool, margin: &[u8], text: &mut Vec<u8>) -> Result<(), AllocError>
    ensures { OnOk result (text.new.items ≡ text.old.items ++ break_before is_due margin.now) }
{
    if !is_due {
        return Ok(());
    }
    text.push(b'\n')?;
    text.extend_from_slice(margin)?;
    Ok(())
}
