//! A limit on the length of a record that comes in pieces.
//!
//! A reader keeps the bytes of a record until it is there whole: an input without an end of a
//! record would be kept without end. [`limited`] makes a record of a record that is read of at most
//! a number of bytes. If it needs more than these although more are ahead, it is too long: it fails
//! with a cut at its start, and the error says [`LimitedError::TooLong`]. So whether a record is
//! too long depends on the input alone, and not on the pieces, and a reader keeps at most that
//! number of bytes and a piece. After that failure `skip_to` goes past the rest of the record.
//!
//! A record with a scan has one with a limit too, so a [`ScanReader`](winnow_scan::ScanReader) of
//! it, as [`scan_with_limit`] makes it, goes over each byte once, and keeps as little.
#![tactic(auto)]

mod asking;
mod functions;
mod laws;
mod limit;
mod scanning;

pub use functions::{limited, scan_with_limit, with_limit};
pub use laws::{determined_limit_law, limit_law, scan_limit_law};
pub use limit::{Limited, LimitedError};
pub use scanning::LimitedState;
