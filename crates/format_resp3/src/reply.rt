//! `Reply`: a reply as a value.

/// A reply of a server, of version 3 of the protocol. The first seven kinds are those of version 2.
#[derive(Debug, Drop)]
pub enum Reply {
    /// A short text without a line end, as `+OK`
    Simple(Vec<u8>),
    /// The text of an error, without a line end, as `-ERR unknown command`
    Error(Vec<u8>),
    /// An integer, as `:1000`
    Integer(i64),
    /// Any bytes, with their number before them
    Bulk(Vec<u8>),
    /// The bulk string that is not there, `$-1`
    NullBulk,
    /// Replies, with their number before them
    Array(Vec<Reply>),
    /// The array that is not there, `*-1`
    NullArray,
    /// What is not there, `_`
    Null,
    /// A truth value, `#t` or `#f`
    Boolean(bool),
    /// The text of a number with a fraction or an exponent, as `,1.23`, or `inf`, `-inf` or `nan`
    Double(Vec<u8>),
    /// The text of an integer of any size, as `(-12345678901234567890`
    BigNumber(Vec<u8>),
    /// The text of an error, of any bytes, with their number before them
    BulkError(Vec<u8>),
    /// The format of a text, of three bytes as `txt`, and then the text
    Verbatim(Vec<u8>, Vec<u8>),
    /// A map: each key with its value, in the order of the bytes
    Map(Vec<(Reply, Reply)>),
    /// Replies without an order, in that of the bytes, of which none is checked to come once
    Set(Vec<Reply>),
    /// What the server sends unasked
    Push(Vec<Reply>),
    /// Attributes, each key with its value, and then the reply that they describe
    Attributed(Vec<(Reply, Reply)>, Box<Reply>),
}
