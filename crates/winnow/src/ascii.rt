//! Parsers of ASCII text.

pub mod laws;

pub use winnow_ascii::{
    Caseless, Class, DecInt, DecUint, Escaped, Fragment, HexUint, HexUintOf, LineEnding, Spell,
    TillLineEnding, alpha0, alpha1, alphanumeric0, alphanumeric1, crlf, dec_int, dec_uint, digit0,
    digit1, escaped, hex_digit0, hex_digit1, hex_uint, line_ending, multispace0, multispace1,
    newline, oct_digit0, oct_digit1, space0, space1, tab, take_escaped, till_line_ending,
};
pub use winnow_float::{Float, float};
