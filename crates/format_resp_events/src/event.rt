//! `ReplyEvent`: a reply that is no array, or the start or the end of an array.

ghost use Rattle.std.specs.Prelude.{◌≡◌};
ghost use Rattle.format_resp.specs.declared.reply.Reply.TheViews.{out-Reply};
ghost use Rattle.format_resp_events.specs.Events.{first_event};

use format_resp::Reply;

/// What an input has next.
#[derive(Debug, Drop)]
pub enum ReplyEvent {
    /// An array begins, with this number of replies
    StartArray(usize),
    /// The array ends that began last
    EndArray,
    /// A short text without a line end, as `+OK`
    Simple(Vec<u8>),
    /// The text of an error, without a line end, as `-ERR unknown command`
    Error(Vec<u8>),
    /// An integer, as `:1000`
    Integer(i64),
    /// Any bytes, with their number before them
    Bulk(Vec<u8>),
    /// The bulk string that is not there, `$-1`
    NullBulk,
    /// The array that is not there, `*-1`
    NullArray,
}

/// Returns the first event of a reply whose array, if it is one, has no replies.
pub(crate) fn first_event(reply: Reply) -> ReplyEvent
    ensures { result ≡ first_event (out-Reply reply) }
{
    match reply {
        Reply::Simple(text) => ReplyEvent::Simple(text),
        Reply::Error(text) => ReplyEvent::Error(text),
        Reply::Integer(number) => ReplyEvent::Integer(number),
        Reply::Bulk(bytes) => ReplyEvent::Bulk(bytes),
        Reply::NullBulk => ReplyEvent::NullBulk,
        Reply::Array(_) => ReplyEvent::StartArray(0),
        Reply::NullArray => ReplyEvent::NullArray,
    }
}
