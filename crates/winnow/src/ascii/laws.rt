//! The laws of parsers of ASCII text: a law does nothing when called, and its contract is the law.

pub use winnow_ascii::{ascii_law, determined_escaped_law, determined_number_law};
pub use winnow_float::determined_float_law;
