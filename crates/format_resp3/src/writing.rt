//! Appending a reply, nested to a depth.

ghost use Rattle.winnow_codec.specs.FormatRows.{SpellsPair};
ghost use Rattle.winnow_codec.specs.Lists.{SpellsEach};
ghost use Rattle.winnow_codec.specs.Writing.{Writes};
ghost use Rattle.format_resp3.specs.Replies.{first_of, SpellsFirst, SpellsInner, SpellsReply};
ghost use Rattle.format_resp3.specs.Exchange.{SpellsOpening, Appends};
ghost use Rattle.format_resp3.specs.declared.reply.Reply.TheViews.{out-Reply};

use crate::Reply;
use crate::layers::{append_held, is_within, kind_of, pairs_of, replies_of, text_of};
use crate::lines::append_first;
use itoa::Buffer;
use winnow_codec::Unwritten;

// Appends the first line of the reply.
fn append_line_of(longest: usize, reply: &Reply, bytes: &mut Vec<u8>) -> Result<(), Unwritten>
    ensures { Appends (SpellsFirst longest) (first_of (out-Reply reply.now)) bytes.old.items
        result bytes.new.items }
{
    let mut digits = Buffer::new();
    append_first(longest, kind_of(reply), text_of(reply, &mut digits), bytes)
}

// Appends the first line of the reply, and the bytes that it holds after it.
fn append_opening(longest: usize, reply: &Reply, bytes: &mut Vec<u8>) -> Result<(), Unwritten>
    ensures { Appends (SpellsOpening longest) (out-Reply reply.now) bytes.old.items result
        bytes.new.items }
{
    match append_line_of(longest, reply, bytes) {
        Ok(()) => {}
        Err(unwritten) => return Err(unwritten),
    }
    match append_held(reply, bytes) {
        Ok(()) => Ok(()),
        Err(refused) => Err(Unwritten::Refused(refused)),
    }
}

// Appends a reply inside others.
#[cycle(writing)]
fn append_inner(
    longest: usize,
    depth: usize,
    reply: &Reply,
    bytes: &mut Vec<u8>,
) -> Result<(), Unwritten>
    ensures { Appends (SpellsInner longest depth) reply.now bytes.old.items result
        bytes.new.items }
{
    if depth == 0 {
        return Err(Unwritten::Unspelled);
    }
    append_nested(longest, depth - 1, reply, bytes)
}

// Appends replies inside another.
#[cycle(writing)]
fn append_replies(
    longest: usize,
    depth: usize,
    replies: &[Reply],
    bytes: &mut Vec<u8>,
) -> Result<(), Unwritten>
    ensures { Appends (SpellsEach (SpellsInner longest depth)) replies.now bytes.old.items result
        bytes.new.items }
{
    for reply in replies {
        match append_inner(longest, depth, reply, bytes) {
            Ok(()) => {}
            Err(unwritten) => return Err(unwritten),
        }
    }
    Ok(())
}

// Appends a key and its value.
#[cycle(writing)]
fn append_pair(
    longest: usize,
    depth: usize,
    pair: &(Reply, Reply),
    bytes: &mut Vec<u8>,
) -> Result<(), Unwritten>
    ensures { Appends (SpellsPair (SpellsInner longest depth) (SpellsInner longest depth))
        pair.now bytes.old.items result bytes.new.items }
{
    match append_inner(longest, depth, &pair.0, bytes) {
        Ok(()) => {}
        Err(unwritten) => return Err(unwritten),
    }
    match append_inner(longest, depth, &pair.1, bytes) {
        Ok(()) => Ok(()),
        Err(unwritten) => Err(unwritten),
    }
}

// Appends keys, each with its value.
#[cycle(writing)]
fn append_pairs(
    longest: usize,
    depth: usize,
    pairs: &[(Reply, Reply)],
    bytes: &mut Vec<u8>,
) -> Result<(), Unwritten>
    ensures { Appends
        (SpellsEach (SpellsPair (SpellsInner longest depth) (SpellsInner longest depth)))
        pairs.now bytes.old.items result bytes.new.items }
{
    for pair in pairs {
        match append_pair(longest, depth, pair, bytes) {
            Ok(()) => {}
            Err(unwritten) => return Err(unwritten),
        }
    }
    Ok(())
}

// Appends a reply, as many more of which may be in one another as the depth.
#[cycle(writing)]
fn append_nested(
    longest: usize,
    depth: usize,
    reply: &Reply,
    bytes: &mut Vec<u8>,
) -> Result<(), Unwritten>
    ensures { Appends (SpellsReply longest depth) reply.now bytes.old.items result
        bytes.new.items }
{
    if !is_within(longest, reply) {
        return Err(Unwritten::Unspelled);
    }
    match append_opening(longest, reply, bytes) {
        Ok(()) => {}
        Err(unwritten) => return Err(unwritten),
    }
    match append_pairs(longest, depth, pairs_of(reply), bytes) {
        Ok(()) => {}
        Err(unwritten) => return Err(unwritten),
    }
    match append_replies(longest, depth, replies_of(reply), bytes) {
        Ok(()) => Ok(()),
        Err(unwritten) => Err(unwritten),
    }
}

// Appends a reply. The bytes are made in memory of their own, so if it fails the others are as they
// were.
pub(crate) fn write_nested(
    longest: usize,
    depth: usize,
    reply: &Reply,
    bytes: &mut Vec<u8>,
) -> Result<(), Unwritten>
    ensures { Writes (SpellsReply longest depth) reply.now bytes.old.items result bytes.new.items }
{
    let mut made = Vec::new(*bytes.allocator());
    match append_nested(longest, depth, reply, &mut made) {
        Ok(()) => match bytes.extend_from_slice(&made) {
            Ok(()) => Ok(()),
            Err(refused) => Err(Unwritten::Refused(refused)),
        },
        Err(unwritten) => Err(unwritten),
    }
}
