//! The parsers: a type for each, in a file that is named for its function.

pub(crate) mod bit_fields;
pub(crate) mod length_and_then;
pub(crate) mod length_repeat;
pub(crate) mod length_take;
