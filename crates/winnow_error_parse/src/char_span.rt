//! The span of the character at an offset of bytes, which need not be text.

ghost use Rattle.std.specs.Prelude.{◌≡◌, ◌≤◌, length};
ghost use Rattle.std.specs.List.{position_or_len};
ghost use Rattle.winnow_error_parse.specs.CharSpan.{is_boundary, last_boundary, char_span};

use std::ops::Range;

fn is_boundary(byte: u8) -> bool
    ensures { result ≡ is_boundary byte }
{
    byte < 128 || byte >= 192
}

/// Returns the last place where a character begins, or 0 if there is none.
fn last_boundary(bytes: &[u8]) -> usize
    ensures { result ≡ last_boundary bytes.now }
{
    let mut end = bytes.len();
    while end > 0 {
        if is_boundary(bytes[end - 1]) {
            return end - 1;
        }
        end -= 1;
    }
    0
}

/// Returns the first place where a character begins, or the length if there is none.
fn first_boundary(bytes: &[u8]) -> usize
    ensures first { result ≡ position_or_len is_boundary bytes.now }
    ensures within { result ≤ length bytes.now }
{
    for (place, byte) in bytes.iter().enumerate() {
        if is_boundary(*byte) {
            return place;
        }
    }
    bytes.len()
}

/// Returns the span of the character at an offset, which may be past the end of the bytes.
pub(crate) fn char_span(bytes: &[u8], offset: usize) -> Range<usize>
    ensures { result ≡ char_span bytes.now offset }
{
    if offset == bytes.len() {
        return offset..offset;
    }
    let next = if offset < bytes.len() {
        offset + 1
    } else {
        bytes.len()
    };
    let start = last_boundary(&bytes[..next]);
    let end = next + first_boundary(&bytes[next..]);
    start..end
}
