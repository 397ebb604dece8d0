//! The parser, in a file that is named for its function.

pub(crate) mod float;
