//! The layer of a reply: its parts, and whether it is one of the protocol.

ghost use Rattle.std.specs.Prelude.{◌≡◌, ◌∷◌, ◌++◌, ◌↔◌, length, true, IsTrue, OnOk};
ghost use Rattle.format_resp3.specs.Replies.{first_of, held_of, pairs_of, replies_of};
ghost use Rattle.format_resp3.specs.Replies.{IsWithin, is_kind, line_end};
ghost use Rattle.format_resp3.specs.declared.reply.Reply.TheViews.{out-Reply};

use crate::Reply;
use crate::texts::{is_double, is_integer};
use itoa::Buffer;
use std::alloc::AllocError;
use std::slice::from_ref;

// Returns the byte of the reply's kind.
pub(crate) fn kind_of(reply: &Reply) -> u8
    ensures kind { result ≡ (first_of (out-Reply reply.now)).0 }
    ensures known { is_kind result ≡ true }
{
    match reply {
        Reply::Simple(_) => b'+',
        Reply::Error(_) => b'-',
        Reply::Integer(_) => b':',
        Reply::Bulk(_) => b'$',
        Reply::NullBulk => b'$',
        Reply::Array(_) => b'*',
        Reply::NullArray => b'*',
        Reply::Null => b'_',
        Reply::Boolean(_) => b'#',
        Reply::Double(_) => b',',
        Reply::BigNumber(_) => b'(',
        Reply::BulkError(_) => b'!',
        Reply::Verbatim(_, _) => b'=',
        Reply::Map(_) => b'%',
        Reply::Set(_) => b'~',
        Reply::Push(_) => b'>',
        Reply::Attributed(_, _) => b'|',
    }
}

// Returns the text of the reply's first line. The digits of a number are made in the buffer.
pub(crate) fn text_of<'a>(reply: &'a Reply, digits: &'a mut Buffer) -> &'a [u8]
    ensures { result.now ≡ (first_of (out-Reply reply.now)).1 }
{
    match reply {
        Reply::Simple(text) => text.as_slice(),
        Reply::Error(text) => text.as_slice(),
        Reply::Integer(number) => digits.format(*number).as_bytes(),
        Reply::Bulk(held) => digits.format(held.len()).as_bytes(),
        Reply::NullBulk => b"-1",
        Reply::Array(replies) => digits.format(replies.len()).as_bytes(),
        Reply::NullArray => b"-1",
        Reply::Null => b"",
        Reply::Boolean(true) => b"t",
        Reply::Boolean(false) => b"f",
        Reply::Double(text) => text.as_slice(),
        Reply::BigNumber(text) => text.as_slice(),
        Reply::BulkError(held) => digits.format(held.len()).as_bytes(),
        Reply::Verbatim(format, text) => digits.format(verbatim_width(format, text)).as_bytes(),
        Reply::Map(pairs) => digits.format(pairs.len()).as_bytes(),
        Reply::Set(replies) => digits.format(replies.len()).as_bytes(),
        Reply::Push(replies) => digits.format(replies.len()).as_bytes(),
        Reply::Attributed(pairs, _) => digits.format(pairs.len()).as_bytes(),
    }
}

// Returns the number of bytes of a verbatim text, with its format and a colon before it.
fn verbatim_width(format: &[u8], text: &[u8]) -> usize
    ensures { result ≡ length (format.now ++ 58 ∷ text.now) }
{
    format.len() + 1 + text.len()
}

// Returns whether the layer of the reply is within the limits.
pub(crate) fn is_within(longest: usize, reply: &Reply) -> bool
    ensures { IsTrue result ↔ IsWithin longest (out-Reply reply.now) }
{
    match reply {
        Reply::Simple(text) => text.len() <= longest,
        Reply::Error(text) => text.len() <= longest,
        Reply::Integer(number) => *number <= i64::MAX,
        Reply::Bulk(held) => held.len() <= longest,
        Reply::NullBulk => true,
        Reply::Array(_) => true,
        Reply::NullArray => true,
        Reply::Null => true,
        Reply::Boolean(_) => true,
        Reply::Double(text) => text.len() <= longest && is_double(text),
        Reply::BigNumber(text) => text.len() <= longest && is_integer(text),
        Reply::BulkError(held) => held.len() <= longest,
        Reply::Verbatim(format, text) => {
            format.len() == 3 && verbatim_width(format, text) <= longest
        }
        Reply::Map(_) => true,
        Reply::Set(_) => true,
        Reply::Push(_) => true,
        Reply::Attributed(_, _) => true,
    }
}

// Appends bytes and a line end.
fn append_block(held: &[u8], bytes: &mut Vec<u8>) -> Result<(), AllocError>
    ensures { OnOk result (bytes.new.items ≡ bytes.old.items ++ (held.now ++ line_end)) }
{
    bytes.extend_from_slice(held)?;
    bytes.extend_from_slice(b"\r\n")?;
    Ok(())
}

// Appends a verbatim text, with its format and a colon before it, and a line end.
fn append_verbatim(format: &[u8], text: &[u8], bytes: &mut Vec<u8>) -> Result<(), AllocError>
    ensures { OnOk result (bytes.new.items
        ≡ bytes.old.items ++ ((format.now ++ 58 ∷ text.now) ++ line_end)) }
{
    bytes.extend_from_slice(format)?;
    bytes.push(b':')?;
    append_block(text, bytes)
}

// Appends the bytes that the reply holds after its first line.
pub(crate) fn append_held(reply: &Reply, bytes: &mut Vec<u8>) -> Result<(), AllocError>
    ensures { OnOk result (bytes.new.items ≡ bytes.old.items ++ held_of (out-Reply reply.now)) }
{
    match reply {
        Reply::Bulk(held) => append_block(held, bytes),
        Reply::BulkError(held) => append_block(held, bytes),
        Reply::Verbatim(format, text) => append_verbatim(format, text, bytes),
        Reply::Simple(_) => Ok(()),
        Reply::Error(_) => Ok(()),
        Reply::Integer(_) => Ok(()),
        Reply::NullBulk => Ok(()),
        Reply::Array(_) => Ok(()),
        Reply::NullArray => Ok(()),
        Reply::Null => Ok(()),
        Reply::Boolean(_) => Ok(()),
        Reply::Double(_) => Ok(()),
        Reply::BigNumber(_) => Ok(()),
        Reply::Map(_) => Ok(()),
        Reply::Set(_) => Ok(()),
        Reply::Push(_) => Ok(()),
        Reply::Attributed(_, _) => Ok(()),
    }
}

// Returns the keys inside the reply, each with its value.
pub(crate) fn pairs_of(reply: &Reply) -> &[(Reply, Reply)]
    ensures { result.now ≡ pairs_of (out-Reply reply.now) }
{
    match reply {
        Reply::Map(pairs) => pairs.as_slice(),
        Reply::Attributed(pairs, _) => pairs.as_slice(),
        Reply::Simple(_) => &[],
        Reply::Error(_) => &[],
        Reply::Integer(_) => &[],
        Reply::Bulk(_) => &[],
        Reply::NullBulk => &[],
        Reply::Array(_) => &[],
        Reply::NullArray => &[],
        Reply::Null => &[],
        Reply::Boolean(_) => &[],
        Reply::Double(_) => &[],
        Reply::BigNumber(_) => &[],
        Reply::BulkError(_) => &[],
        Reply::Verbatim(_, _) => &[],
        Reply::Set(_) => &[],
        Reply::Push(_) => &[],
    }
}

// Returns the other replies inside the reply.
pub(crate) fn replies_of(reply: &Reply) -> &[Reply]
    ensures { result.now ≡ replies_of (out-Reply reply.now) }
{
    match reply {
        Reply::Array(replies) => replies.as_slice(),
        Reply::Set(replies) => replies.as_slice(),
        Reply::Push(replies) => replies.as_slice(),
        Reply::Attributed(_, reply) => from_ref(&**reply),
        Reply::Simple(_) => &[],
        Reply::Error(_) => &[],
        Reply::Integer(_) => &[],
        Reply::Bulk(_) => &[],
        Reply::NullBulk => &[],
        Reply::NullArray => &[],
        Reply::Null => &[],
        Reply::Boolean(_) => &[],
        Reply::Double(_) => &[],
        Reply::BigNumber(_) => &[],
        Reply::BulkError(_) => &[],
        Reply::Verbatim(_, _) => &[],
        Reply::Map(_) => &[],
    }
}
