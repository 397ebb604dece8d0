//! JSON, as RFC 8259 writes it, read from any stream of bytes, and written.
//!
//! [`read_number`] and [`read_string`] read a number and a string, and [`write_string`] appends the
//! text of a string: `format_json_scalars` has them.
//!
//! [`read_value`] reads a [`Value`] within a limit on its depth, and [`read_document`] a whole text
//! that is one value. Their contracts say that the value is the only one with which the input
//! starts, and at which place a malformed one breaks off: there is one, as [`place_law`] says.
//!
//! [`JsonToken`] is the record of a [`Token`], for a `ScanReader` over bytes that come in pieces;
//! [`tokens_in_pieces_law`] says what such a reader reads. `format_json_events` has a reader of
//! events on it, which reports the [`Cause`] of a malformed token.
//!
//! [`write_value`] appends the text of a value. That text is read back as the same value, as
//! [`round_trip_law`] says.
#![tactic(auto, using(winnow_parser::proofs::lemmas::OnwardLemmas::onward_steps))]

mod causes;
mod found;
mod grammar;
mod laws;
mod reading;
mod scalars;
mod scan;
mod tokens;
mod value;
mod writing;

pub use causes::Cause;
#[doc(hidden)]
pub use causes::{cause_of, is_cut};
pub use format_json_scalars::{Number, read_number, read_string, write_string};
#[doc(hidden)]
pub use found::blank_count;
pub use laws::{place_law, round_trip_law, tokens_in_pieces_law};
pub use reading::{Damage, JsonToken, read_document, read_value};
pub use scan::TokenScan;
pub use tokens::Token;
pub use value::Value;
pub use writing::{Unwritten, write_value};
