//! `Reply`: a reply as a value.

/// A reply of a server.
#[derive(Debug, Drop)]
pub enum Reply {
    /// A short text without a line end, as `+OK`
    Simple(Vec<u8>),
    /// The text of an error, without a line end, as `-ERR unknown command`
    Error(Vec<u8>),
    /// An integer, as `:1000`
    Integer(i64),
    /// Any bytes, with their number before them
    Bulk(Vec<u8>),
    /// The bulk string that is not there, `$-1`
    NullBulk,
    /// Replies, with their number before them
    Array(Vec<Reply>),
    /// The array that is not there, `*-1`
    NullArray,
}
