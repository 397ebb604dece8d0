//! Readers that go over each byte once, for records with a scan.
//!
//! A `ByteReader` asks its record of all that is ahead, from the beginning, at each piece: a long
//! record in short pieces costs the square of its length. A [`Scan`] is a record with a scan beside
//! its parser. The scan goes over the bytes of a record once, as they come, with a small state, and
//! says only when the parser may be asked. A [`ScanReader`] reads as a `ByteReader` does; once its
//! record needed more, it asks the record again only when the scan says so. So a record costs at
//! most two calls of the parser and one scan of its bytes, for each cut of the input, and one that
//! is there whole costs a call.
//!
//! The scan has no value and names no end of a record. If it stops too early, the parser is asked
//! more often, and answers as ever. While it goes on, the parser needs more, or has neither a value
//! nor a failure there: that is its law, and the contract of `read_next` passes it on. No contract
//! counts calls.
//!
//! [`Line`] is such a record, with the plainest scan. After a failure `skip` and `skip_to` go past
//! damage, as those of a `ByteReader` do.
#![tactic(auto)]

mod laws;
mod line;
mod scan;
mod scan_reader;

pub use laws::{scan_law, scan_skip_law};
pub use line::Line;
pub use scan::Scan;
pub use scan_reader::ScanReader;
