//! Comma-separated values, one field at a time, from bytes that come in pieces.
//!
//! A [`FieldReader`] is pushed pieces of any sizes. Each call of its `read_next` moves past one
//! field and says whether the field was the last of its record, and `field` lends the value. The
//! format is that of `format_csv`, and so are the records, as [`field_rows_law`] says. The reader
//! keeps the field that is read, however long its record is, and a piece.
//!
//! A value is lent as it stands in the kept bytes, and no byte of it is copied. Only a value in
//! which a quote is doubled is put together in a buffer of the reader, which serves for all fields.
//!
//! A field that is not ahead whole is looked at as its pieces come, each byte once: the reader
//! keeps how far it looked.
#![tactic(auto)]

mod after;
mod field_reader;
mod finding;
mod laws;
mod lending;
mod looking;
mod special;
mod unescaping;

pub use after::Ending;
pub use field_reader::{FieldError, FieldReader};
pub use laws::field_rows_law;
