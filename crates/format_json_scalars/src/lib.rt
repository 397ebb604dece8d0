//! The numbers and strings of JSON, as RFC 8259 writes them, on which its values, tokens and events
//! stand.
//!
//! [`read_number`] reads a number. Its contract speaks of bytes alone: which number it returns,
//! that its text is the longest one with which the input starts, and that it misses none. A number
//! ends before the first byte that no number has, so that of `01` or `1-2` nothing is read.
//!
//! [`read_string`] reads a string. Its contract says which characters the string has, that no
//! string is missed, and at which place a malformed one is wrong. [`write_string`] appends the text
//! of a string.
//!
//! `format_json` passes these on. The other functions read and test bytes for the crates above.
#![tactic(auto, using(winnow_parser::proofs::lemmas::OnwardLemmas::onward_steps))]

mod characters;
mod escapes;
mod numbers;
mod parts;
mod quoting;
mod strings;
mod tails;

pub use escapes::{byte_or, digit_value};
pub use numbers::{Number, is_number_byte, is_of_text, number_count, number_of, read_number};
pub use parts::{begins_number, is_number};
pub use quoting::{append_string, write_string};
pub use strings::{Reading, may_be_char, read_bytes, read_string};
pub use tails::Tail;
