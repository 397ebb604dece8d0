//! The laws of errors: a law does nothing when called, and its contract is the law.

pub use winnow_error::{bracket_law, mode_law, or_law};
pub use winnow_error_parse::{char_span_law, parse_error_equality_law};
pub use winnow_tree::{tree_bracket_law, tree_or_law};
