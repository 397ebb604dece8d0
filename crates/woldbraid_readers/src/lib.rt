//! What the C library of this name calls: readers over pieces that answer by numbers and pointers.
//!
//! A [`JsonReader`] has the proved reader of its format, and what the last call lent. [`Kept`] is a
//! reader of one of the formats, as a handle of C holds it. A call answers by a [`Status`], and
//! writes what it read into a plain struct.
#![tactic(auto)]

mod csv_reader;
mod csv_record;
mod json_event;
mod json_reader;
mod kept;
mod resp_event;
mod resp_reader;
mod status;

pub use csv_reader::CsvReader;
pub use csv_record::CsvRecord;
pub use json_event::{JsonEvent, JsonKind};
pub use json_reader::JsonReader;
pub use kept::Kept;
pub use resp_event::{RespEvent, RespKind};
pub use resp_reader::RespReader;
pub use status::Status;
