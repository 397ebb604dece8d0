//! The parsers: a type for each, in a file that is named for its function.

pub(crate) mod dec_int;
pub(crate) mod dec_uint;
pub(crate) mod escaped;
pub(crate) mod hex_uint;
pub(crate) mod line_ending;
pub(crate) mod till_line_ending;
