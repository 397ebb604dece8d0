//! Writing a reply.

ghost use Rattle.std.specs.Prelude.{◌≡◌, ◌∷◌, ◌++◌, length, decimal, OnOk, OnErr};
ghost use Rattle.std.specs.List.{list_any};
ghost use Rattle.std.specs.Fmt.{signed_decimal};
ghost use Rattle.format_resp.specs.Language.{line};
ghost use Rattle.format_resp.specs.Writing.{ends_line, is_writable, written, TellsLineEnd};

use crate::Reply;
use itoa::Buffer;
use std::alloc::AllocError;

/// Why a reply was not written.
#[derive(Clone, Copy, Debug, Drop)]
pub enum Unwritten {
    /// A simple string or an error in it has a carriage return or a newline, which no bytes spell
    LineEnd,
    /// Memory was refused
    Refused(AllocError),
}

/// Appends the bytes that spell the reply.
///
/// Where a simple string or an error in it has a carriage return or a newline, the answer is
/// `LineEnd`: such a reply has no spelling. Where nothing is written, the bytes are what they were.
/// Calls are nested as deep as the arrays of the reply.
pub fn write_reply(reply: &Reply, bytes: &mut Vec<u8>) -> Result<(), Unwritten>
    ensures written { OnOk result (bytes.new.items ≡ bytes.old.items ++ written reply.now) }
    ensures line_end { TellsLineEnd reply.now result }
    ensures unwritten { OnErr result (bytes.new.items ≡ bytes.old.items) }
{
    if !is_writable(reply) {
        return Err(Unwritten::LineEnd);
    }
    // The bytes are made in memory of their own, so a refusal leaves the others as they were.
    let mut made = Vec::new(*bytes.allocator());
    match append_reply(reply, &mut made) {
        Ok(()) => match bytes.extend_from_slice(&made) {
            Ok(()) => Ok(()),
            Err(refused) => Err(Unwritten::Refused(refused)),
        },
        Err(refused) => Err(Unwritten::Refused(refused)),
    }
}

// Returns whether no simple string and no error in the reply has a line end.
fn is_writable(reply: &Reply) -> bool
    ensures { result ≡ is_writable reply.now }
{
    match reply {
        Reply::Simple(text) => !has_line_end(text),
        Reply::Error(text) => !has_line_end(text),
        Reply::Integer(_) => true,
        Reply::Bulk(_) => true,
        Reply::NullBulk => true,
        Reply::Array(replies) => {
            for one in replies {
                if !is_writable(one) {
                    return false;
                }
            }
            true
        }
        Reply::NullArray => true,
    }
}

// Returns whether a byte of the text is a carriage return or a newline.
fn has_line_end(text: &[u8]) -> bool
    ensures { result ≡ list_any ends_line text.now }
{
    for byte in text {
        if matches!(byte, b'\r' | b'\n') {
            return true;
        }
    }
    false
}

// Appends the bytes of the reply.
fn append_reply(reply: &Reply, bytes: &mut Vec<u8>) -> Result<(), AllocError>
    ensures { OnOk result (bytes.new.items ≡ bytes.old.items ++ written reply.now) }
{
    match reply {
        Reply::Simple(text) => append_line(b'+', text, bytes),
        Reply::Error(text) => append_line(b'-', text, bytes),
        Reply::Integer(number) => append_integer(*number, bytes),
        Reply::Bulk(held) => append_bulk(held, bytes),
        Reply::NullBulk => append_line(b'$', b"-1", bytes),
        Reply::Array(replies) => {
            append_length(b'*', replies.len(), bytes)?;
            for one in replies {
                append_reply(one, bytes)?;
            }
            Ok(())
        }
        Reply::NullArray => append_line(b'*', b"-1", bytes),
    }
}

// Appends a byte, and a line with the text.
fn append_line(kind: u8, text: &[u8], bytes: &mut Vec<u8>) -> Result<(), AllocError>
    ensures { OnOk result (bytes.new.items ≡ bytes.old.items ++ kind ∷ line text.now) }
{
    bytes.push(kind)?;
    bytes.extend_from_slice(text)?;
    bytes.extend_from_slice(b"\r\n")?;
    Ok(())
}

// Appends a byte, and a line with the length.
fn append_length(kind: u8, count: usize, bytes: &mut Vec<u8>) -> Result<(), AllocError>
    ensures { OnOk result (bytes.new.items ≡ bytes.old.items ++ kind ∷ line (decimal count)) }
{
    let mut digits = Buffer::new();
    append_line(kind, digits.format(count).as_bytes(), bytes)
}

// Appends an integer.
fn append_integer(number: i64, bytes: &mut Vec<u8>) -> Result<(), AllocError>
    ensures { OnOk result (
        bytes.new.items ≡ bytes.old.items ++ 58 ∷ line (signed_decimal number)) }
{
    let mut digits = Buffer::new();
    append_line(b':', digits.format(number).as_bytes(), bytes)
}

// Appends a bulk string.
fn append_bulk(held: &[u8], bytes: &mut Vec<u8>) -> Result<(), AllocError>
    ensures { OnOk result (bytes.new.items
        ≡ bytes.old.items ++ 36 ∷ (line (decimal (length held.now)) ++ line held.now)) }
{
    append_length(b'$', held.len(), bytes)?;
    bytes.extend_from_slice(held)?;
    bytes.extend_from_slice(b"\r\n")?;
    Ok(())
}
