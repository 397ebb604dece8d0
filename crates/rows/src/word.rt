//! A word of an input.
/// A word of a row's input.
#[derive(Debug, Drop)]
pub enum Word {
    /// A text in double quotes.
    Text(String),
    /// Bytes: `b"..."`, or `b'.'`.
    Bytes(Vec<u8>),
    /// A character in single quotes.
    Char(char),
    /// A word without quotes: a number, a range, a name.
    Plain(String),
}
