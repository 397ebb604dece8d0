//! The limits of replies: `ReplyFormat`, and the promises of what is written.

ghost use Rattle.std.specs.Prelude.{◌≡◌, ℕ, List};
ghost use Rattle.winnow_codec.specs.Formats.{IsPrefixFree};
ghost use Rattle.winnow_codec.specs.Writing.{Writes};
ghost use Rattle.format_resp3.specs.Replies.{SpellsReply, AreSameReply};
ghost use Rattle.format_resp3.specs.declared.reply.Reply.{Reply};

use crate::Reply;
use crate::writing::write_nested;
use winnow_codec::Unwritten;

/// The format of replies within limits.
#[derive(Clone, Copy, Debug, Drop)]
pub struct ReplyFormat {
    /// The greatest number of bytes in a text, as [`Simple`](Reply::Simple) and
    /// [`Bulk`](Reply::Bulk) have it; of a verbatim text with its format and a colon
    pub longest: usize,
    /// The greatest number of replies that a reply stands in: 0 allows arrays, maps, sets and what
    /// is pushed without elements, and no attributes
    pub depth: usize,
}

/// Appends the bytes that spell a reply within these limits. If none do, it returns `Unspelled`;
/// then, and if memory is refused, the bytes are what they were.
///
/// ```
/// let limits = ReplyFormat { longest: 100, depth: 3 };
/// assert!(rt; write_reply(limits, &Reply::Boolean(true), &mut bytes).is_ok());
/// assert_eq!(rt; bytes.as_slice(), b"#t\r\n".as_slice());
/// ```
pub fn write_reply(limits: ReplyFormat, reply: &Reply, bytes: &mut Vec<u8>) -> Result<(), Unwritten>
    ensures { Writes (SpellsReply limits.longest limits.depth) reply.now bytes.old.items result
        bytes.new.items }
{
    write_nested(limits.longest, limits.depth, reply, bytes)
}

/// The law of replies: a reply has one spelling, and no spelling is the front of another's, so that
/// bytes that are written can be read in one way alone, whatever follows. It does nothing when
/// called: its contract is the law.
pub fn reply_law()
    ensures once { (longest depth : ℕ) (reply : Reply) (bytes others : List ℕ)
        → SpellsReply longest depth reply bytes → SpellsReply longest depth reply others
        → bytes ≡ others }
    ensures apart { (longest depth : ℕ)
        → IsPrefixFree AreSameReply (SpellsReply longest depth) }
{}
