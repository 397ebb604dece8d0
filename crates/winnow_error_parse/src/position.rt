//! `translate_position`, which returns the line and the column of an offset.

ghost use Rattle.std.specs.Prelude.{◌≡◌, ◌<◌, ◌≤◌, ℕ, suc, true, length, slice_index, count_by};
ghost use Rattle.std.specs.Str.{chars};
ghost use Rattle.winnow_error_parse.specs.Position.{is_newline, line_start, last_column, line_of};
ghost use Rattle.winnow_error_parse.specs.Position.{column_of};

use memchr::{memchr_iter, memrchr};
use std::str;

/// Returns where the line begins in which the bytes end.
pub(crate) fn line_start(before: &[u8]) -> usize
    ensures start { result ≡ line_start before.now }
    ensures within { result ≤ length before.now }
    ensures on_line { (k : ℕ) → result ≤ k → k < length before.now
        → ¬ (is_newline (slice_index before.now k) ≡ true) }
    ensures behind_newline { (k : ℕ) → result ≡ suc k
        → is_newline (slice_index before.now k) ≡ true }
{
    match memrchr(b'\n', before) {
        Some(newline) => newline + 1,
        None => 0,
    }
}

pub(crate) fn count_newlines(bytes: &[u8]) -> usize
    ensures { result ≡ count_by is_newline bytes.now }
{
    memchr_iter(b'\n', bytes).count()
}

fn count_chars(text: &str) -> usize
    ensures count { result ≡ length (chars text.now) }
    ensures some { 0 < length text.now → 0 < result }
    ensures within { result ≤ length text.now }
{
    text.chars().count()
}

/// Returns the column of the last character of a part of a line, or of its last byte if the part is
/// not UTF-8.
fn last_column(part: &[u8]) -> usize
    requires { 0 < length part.now }
    ensures column { result ≡ last_column part.now }
    ensures within { result < length part.now }
{
    match str::from_utf8(part) {
        Ok(text) => count_chars(text) - 1,
        Err(_) => part.len() - 1,
    }
}

/// Returns the line and the column of an offset, both counted from 0.
///
/// A column counts characters. It counts bytes if the line up to the offset is not UTF-8, as inside
/// a longer character. An offset after the last byte is on that byte's line, also if that byte is a
/// newline.
pub fn translate_position(input: &[u8], index: usize) -> (usize, usize)
    ensures line { result.0 ≡ line_of input.now index }
    ensures column { result.1 ≡ column_of input.now index }
{
    if input.is_empty() {
        return (0, index);
    }
    let place = index.min(input.len() - 1);
    let before = &input[..place];
    let line = count_newlines(before);
    let column = last_column(&input[line_start(before)..place + 1]);
    (line, column + (index - place))
}
