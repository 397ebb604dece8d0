//! [`ParseError`]: the error of a whole parse, which prints its line, its column and the line
//! itself. [`translate_position`] gives the line and the column of any offset into bytes, also of
//! bytes that are not UTF-8.
#![tactic(auto)]

mod char_span;
mod laws;
mod line;
mod parse_error;
mod position;
mod text;

pub use laws::{char_span_law, parse_error_equality_law};
pub use parse_error::ParseError;
pub use position::translate_position;
