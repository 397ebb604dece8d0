//! Whether a reply breaks the line, as the value of a key.

ghost use Rattle.std.specs.Prelude.{◌≡◌, map};
ghost use Rattle.wb_replies3.specs.Printing.{breaks, breaks_after, list_breaks};

use format_resp3::Reply;

// Returns whether `redis-cli` begins a line before the reply, if it is the value of a key: if it
// has several entries, or one that breaks the line too.
#[cycle(breaking)]
pub(crate) fn breaks(reply: &Reply) -> bool
    ensures { result ≡ breaks reply.now }
{
    match reply {
        Reply::Simple(_) => false,
        Reply::Error(_) => false,
        Reply::Integer(_) => false,
        Reply::Bulk(_) => false,
        Reply::NullBulk => false,
        Reply::Array(replies) => some_break(replies),
        Reply::NullArray => false,
        Reply::Null => false,
        Reply::Boolean(_) => false,
        Reply::Double(_) => false,
        Reply::BigNumber(_) => false,
        Reply::BulkError(_) => false,
        Reply::Verbatim(_, _) => false,
        Reply::Map(pairs) => pairs_break(pairs),
        Reply::Set(replies) => some_break(replies),
        Reply::Push(replies) => some_break(replies),
        Reply::Attributed(_, described) => breaks(described),
    }
}

// Returns whether a list of these replies breaks the line.
#[cycle(breaking)]
fn some_break(replies: &[Reply]) -> bool
    ensures { result ≡ list_breaks (map breaks replies.now) }
{
    if replies.is_empty() {
        return false;
    }
    if replies.len() == 1 {
        return breaks(&replies[0]);
    }
    true
}

// Returns whether a map of these keys with their values breaks the line.
#[cycle(breaking)]
fn pairs_break(pairs: &[(Reply, Reply)]) -> bool
    ensures { result ≡ list_breaks (map breaks_after pairs.now) }
{
    if pairs.is_empty() {
        return false;
    }
    if pairs.len() == 1 {
        return breaks(&pairs[0].1);
    }
    true
}
