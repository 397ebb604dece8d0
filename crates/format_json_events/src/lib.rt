//! The events of a JSON text that comes in pieces.
//!
//! An [`EventReader`] returns the events of a text, and keeps no more than a token and a piece. Of
//! a text that is a value it returns that value's events, and it is done with no malformed text, as
//! [`events_law`] says. Of a malformed token it reports the `Cause`, and of one that the input ends
//! in, that it ends early. Its errors and `read_document` name one place of a malformed text, as
//! [`stops_law`] says.
//!
//! `turns` says what each token does if it comes next, and `syntax` keeps which brackets are open.
//! The tokens are those of a `ScanReader` of `format_json::JsonToken`, and `blanks` drops what
//! blanks are before one.
#![tactic(auto)]

mod blanks;
mod event_reader;
mod laws;
mod syntax;
mod turns;

pub use event_reader::{Event, EventError, EventReader, WithinError};
pub use laws::{events_law, stops_law};
