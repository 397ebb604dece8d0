//! Byte order marks before the first record.

ghost use Rattle.std.specs.Prelude.{◌≡◌, true, false, None, Some, IfSome, IfOk, IfErr, ◌↔◌};
ghost use Rattle.format_csv.specs.Marks.{mark_of, ends_in_mark, HasText, IsRefused, BeginsText};
ghost use Rattle.format_csv.specs.Marks.{RefusesText, mark_text, is_cut};

use std::fmt;

/// A byte order mark, which some programs write before a text. Its text says where it stands.
#[derive(Clone, Copy, Debug, Drop, PartialEq, Eq)]
pub enum Mark {
    /// EF BB BF, the mark of UTF-8
    Utf8,
    /// FE FF or FF FE, those of UTF-16
    Utf16,
    /// 00 00 FE FF or FF FE 00 00, those of UTF-32
    Utf32,
}

impl fmt::Display for Mark {
    ghost output = { λ mark. Some (mark_text mark) };

    fn fmt<W: fmt::Write>(&self, f: &mut fmt::Formatter<W>) -> fmt::Result {
        match self {
            Mark::Utf8 => write!(f, "a byte order mark stands before the first record"),
            Mark::Utf16 => write!(
                f,
                "a byte order mark of UTF-16 stands before the first record"
            ),
            Mark::Utf32 => write!(
                f,
                "a byte order mark of UTF-32 stands before the first record"
            ),
        }
    }
}

/// Returns the byte order mark with which the bytes begin, if they begin with one.
pub fn byte_order_mark(bytes: &[u8]) -> Option<Mark>
    ensures { result ≡ mark_of bytes.now }
{
    if bytes.starts_with(b"\xEF\xBB\xBF") {
        return Some(Mark::Utf8);
    }
    if bytes.starts_with(b"\0\0\xFE\xFF") || bytes.starts_with(b"\xFF\xFE\0\0") {
        return Some(Mark::Utf32);
    }
    if bytes.starts_with(b"\xFE\xFF") || bytes.starts_with(b"\xFF\xFE") {
        return Some(Mark::Utf16);
    }
    None
}

// Returns whether a mark begins with the bytes, and is longer.
fn is_cut(mark: &[u8], bytes: &[u8]) -> bool
    ensures { result ≡ is_cut mark.now bytes.now }
{
    bytes.len() < mark.len() && mark.starts_with(bytes)
}

// Returns whether the bytes end inside a mark.
fn ends_in_mark(bytes: &[u8]) -> bool
    ensures { result ≡ ends_in_mark bytes.now }
{
    is_cut(b"\xEF\xBB\xBF", bytes)
        || is_cut(b"\0\0\xFE\xFF", bytes)
        || is_cut(b"\xFF\xFE\0\0", bytes)
        || is_cut(b"\xFE\xFF", bytes)
}

// Returns the text of an input.
fn text_of(bytes: &[u8], skips_mark: bool) -> Result<&[u8], Mark>
    ensures text { IfOk result (λ text. HasText skips_mark bytes.now text.now) }
    ensures refused { IfErr result (λ mark. IsRefused skips_mark bytes.now mark) }
{
    match byte_order_mark(bytes) {
        None => Ok(bytes),
        Some(Mark::Utf8) if skips_mark => Ok(&bytes[3..]),
        Some(mark) => Err(mark),
    }
}

/// Returns the beginning of the text of an input that comes in pieces: the bytes so far, without
/// the byte order mark of UTF-8 before them, if it is to be skipped. Whatever follows is text.
///
/// Where another mark stands before the text, or one that is not to be skipped, it is returned as
/// an error. Where the bytes end inside a mark, and more may follow, they do not tell yet, and
/// `None` is returned. At the end such bytes are text.
///
/// The text is what a `ByteReader` of a [`Row`](crate::Row) is pushed.
pub fn skip_mark(bytes: &[u8], skips_mark: bool, ended: bool) -> Option<Result<&[u8], Mark>>
    ensures text { IfSome result (λ start. IfOk start (λ text.
        BeginsText skips_mark ended bytes.now text.now)) }
    ensures refused { IfSome result (λ start. IfErr start
        (RefusesText skips_mark ended bytes.now)) }
    ensures waits { (result ≡ None) ↔ ((ended ≡ false) × (ends_in_mark bytes.now ≡ true)) }
{
    if !ended && ends_in_mark(bytes) {
        return None;
    }
    Some(text_of(bytes, skips_mark))
}
