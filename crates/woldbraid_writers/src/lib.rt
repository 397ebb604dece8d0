//! What the C library of this name calls to write: writers that answer by numbers and pointers.
//!
//! A [`JsonWriter`] takes the values of a JSON text one by one, a [`CsvWriter`] the fields of
//! records, a [`RespWriter`] replies and commands. [`Writer`] is a writer of one of the formats, as
//! a handle of C holds it. A call answers by a [`Status`], and where it is not `Ok`, what was
//! written is what it was. What was written is lent ([`Written`]) until the next call, and can be
//! dropped.
#![tactic(auto)]

mod append;
mod csv_writer;
mod due;
mod json_writer;
mod laws;
mod resp_writer;
mod status;
mod writer;
mod written;

pub use csv_writer::CsvWriter;
pub use due::{Bracket, Due};
pub use json_writer::JsonWriter;
pub use laws::{record_law, whole_reply_law, whole_text_law};
pub use resp_writer::RespWriter;
pub use status::Status;
pub use writer::Writer;
pub use written::Written;
