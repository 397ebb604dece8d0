//! The functions that make a record with a limit, and a reader of it.

ghost use Rattle.std.specs.Prelude.{◌≡◌};
ghost use Rattle.winnow_reader.specs.State.{at_start};
ghost use Rattle.winnow_reader_limit.specs.Limit.{limit_of};

use crate::Limited;
use std::alloc::Global;
use winnow_reader::{ByteReader, Record};
use winnow_scan::{Scan, ScanReader};

/// Returns this record with a limit: it has at most `greatest` bytes, with those that end it.
pub fn limited<R>(inner: R, greatest: usize) -> Limited<R>
    ensures inner { result.inner ≡ inner }
    ensures greatest { result.greatest ≡ greatest }
{
    Limited { inner, greatest }
}

/// Returns a reader of records of at most `greatest` bytes each, to which nothing was pushed.
///
/// A log whose lines may be too long:
///
/// ```
/// if skipping && !matches!(reader.skip_to(b"\n"), Skipped::Found(_)) {
///     return Ok(true);
/// }
/// skipping = false;
/// match reader.read_next() {
///     Ok(Next::Value(number)) => log.numbers.push(number)?,
///     Ok(Next::NeedsMore | Next::Done) => return Ok(false),
///     ..
///     Err(ReadError::Failed {
///         error: LimitedError::TooLong,
///         place,
///         ..
///     }) => {
///         log.long.push(place)?;
///         skipping = true;
///     }
///     ..
/// }
/// ..
/// let mut reader = with_limit(alloc, number_line(), 4);
/// ```
pub fn with_limit<R: Record>(alloc: Global, inner: R, greatest: usize) -> ByteReader<Limited<R>>
    ensures { result ≡ at_start (limit_of inner greatest) }
{
    ByteReader::new(alloc, limited(inner, greatest))
}

/// Returns a reader of records of at most `greatest` bytes each, to which nothing was pushed, that
/// goes over each byte once, by the scan of the record.
///
/// Lines of at most 8 bytes, with their line feeds:
///
/// ```
/// let mut reader = scan_with_limit(alloc, Line, 8);
/// ```
pub fn scan_with_limit<R: Scan>(alloc: Global, inner: R, greatest: usize) -> ScanReader<Limited<R>>
    ensures { result ≡ at_start (limit_of inner greatest) }
{
    ScanReader::new(alloc, limited(inner, greatest))
}
