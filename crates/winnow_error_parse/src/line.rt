//! The line of bytes at an offset.

ghost use Rattle.std.specs.Prelude.{◌≡◌, ◌==◌, not, count_by};
ghost use Rattle.std.specs.List.{before_first};
ghost use Rattle.winnow_error_parse.specs.Position.{is_newline, line_of};
ghost use Rattle.winnow_error_parse.specs.ParseErrorText.{nth_line};

use crate::position::line_start;
use memchr::memchr;

/// Returns whether the bytes have a newline.
pub(crate) fn has_newline(bytes: &[u8]) -> bool
    ensures { result ≡ not (count_by is_newline bytes.now == 0) }
{
    memchr(b'\n', bytes).is_some()
}

/// Returns what stands before the first newline, or all bytes if there is none.
fn first_line(bytes: &[u8]) -> &[u8]
    ensures { result.now ≡ before_first is_newline bytes.now }
{
    match memchr(b'\n', bytes) {
        Some(end) => &bytes[..end],
        None => bytes,
    }
}

/// Returns the line where the offset stands, without its newline.
pub(crate) fn line_at(bytes: &[u8], offset: usize) -> &[u8]
    ensures { result.now ≡ nth_line bytes.now (line_of bytes.now offset) }
{
    let place = offset.min(bytes.len().saturating_sub(1));
    let start = line_start(&bytes[..place]);
    first_line(&bytes[start..])
}
