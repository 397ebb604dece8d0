//! Parsers of ASCII text: letters, digits and blanks, the ends of lines, text with escapes, and the
//! numbers that digits write.
#![tactic(auto, using(winnow_parser::proofs::lemmas::OnwardLemmas::onward_steps))]

mod class;
mod fragment;
mod functions;
mod laws;
mod parsers;

pub use class::Class;
pub use fragment::{Fragment, Spell};
pub use functions::{
    alpha0, alpha1, alphanumeric0, alphanumeric1, crlf, dec_int, dec_uint, digit0, digit1, escaped,
    hex_digit0, hex_digit1, hex_uint, line_ending, multispace0, multispace1, newline, oct_digit0,
    oct_digit1, space0, space1, tab, take_escaped, till_line_ending,
};
pub use laws::{ascii_law, determined_escaped_law, determined_number_law};
pub use parsers::dec_int::DecInt;
pub use parsers::dec_uint::DecUint;
pub use parsers::escaped::Escaped;
pub use parsers::hex_uint::{HexUint, HexUintOf};
pub use parsers::line_ending::LineEnding;
pub use parsers::till_line_ending::TillLineEnding;
pub use winnow_match::Caseless;
