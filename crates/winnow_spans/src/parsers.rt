//! The parsers: a type for each, in a file that is named for its function.

pub(crate) mod token_span;
pub(crate) mod with_token_span;
