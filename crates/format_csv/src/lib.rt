//! Comma-separated values, as RFC 4180 writes them: records of fields, which are bytes, read from
//! any stream of bytes and written back.
//!
//! A record is one line of fields with commas between them. A field stands for itself, or between
//! quotes, where each quote is doubled; there it may have commas and line ends. A record ends with
//! CR LF, with LF alone, or where the input ends and something stands there.
//!
//! [`read_record`] reads one record. Its contract speaks of bytes alone: which record it gives,
//! where it fails, and that it misses none. [`read_table`] reads the records of a whole text, and
//! says where one is damaged. [`write_record`] writes a record, which [`read_record`] reads back.
//! [`first_uneven`] finds the first record that has another number of fields than the first one.
//!
//! A [`Row`] is a record of a reader, too: a `winnow_reader::ByteReader` of it reads records from
//! bytes that come in pieces. [`rows_in_pieces_law`] says in the words of the format what it reads.
//!
//! A [`RowReader`] fills a [`ByteRecord`] that its caller keeps and that serves for all records,
//! so once this has room for the longest record, reading allocates nothing. The reader is pushed
//! pieces of any sizes, and its contracts speak of the same records: which one the fields are, the
//! rest after it, and the place at which one is damaged. A record that is ahead whole is gone over
//! once. One that is not is scanned as its pieces come, each byte once, and is filled when the scan
//! says that it may have ended.
//!
//! A record is read as it stands. [`skip_mark`] finds a byte order mark before the first one, and
//! skips it or refuses it, before a reader is pushed anything.
#![tactic(auto, using(winnow_parser::proofs::lemmas::OnwardLemmas::onward_steps))]

mod fields;
mod filling;
mod filling_fields;
mod gathering;
mod grammar;
mod laws;
mod marks;
mod reading;
mod row_reader;
mod scan;
mod special;
mod widths;
mod writing;

pub use csv::ByteRecord;
pub use fields::{Plain, Quoted};
pub use gathering::Chunks;
pub use grammar::{Fields, Row, RowEnd};
pub use laws::rows_in_pieces_law;
pub use marks::{Mark, byte_order_mark, skip_mark};
pub use reading::{Damage, read_record, read_table};
pub use row_reader::{RowError, RowReader};
pub use scan::RowState;
pub use widths::first_uneven;
pub use writing::write_record;
