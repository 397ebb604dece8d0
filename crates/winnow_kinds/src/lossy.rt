//! The text of bytes, with U+FFFD for damaged parts.

ghost use Rattle.std.specs.Prelude.{take, encode_utf8_all};
ghost use Rattle.std.specs.Fmt.{WritesOnOk, WritesStyledOnOk, formatter_spec, spec_precision};
ghost use Rattle.std.specs.Str.Lossy.{utf8_lossy};
ghost use Rattle.bstr.specs.Utf8.{lossy_chars};
ghost use Rattle.winnow_kinds.specs.LossyText.{lossy_text};

use bstr::ByteSlice;
use std::fmt;

/// Writes the text of the bytes, with U+FFFD for each maximal damaged part.
fn write_whole<W: fmt::Write>(bytes: &[u8], f: &mut fmt::Formatter<W>) -> fmt::Result
    ensures { WritesStyledOnOk W.write_str_gives f.old result (utf8_lossy bytes.now) f.new }
{
    for chunk in ByteSlice::utf8_chunks(&bytes) {
        f.write_str(chunk.valid())?;
        if !chunk.invalid().is_empty() {
            f.write_str("\u{FFFD}")?;
        }
    }
    Ok(())
}

/// Writes the first `count` characters of the text.
fn write_front<W: fmt::Write>(bytes: &[u8], count: usize, f: &mut fmt::Formatter<W>) -> fmt::Result
    ensures { WritesStyledOnOk W.write_str_gives f.old result
        (encode_utf8_all (take count (lossy_chars bytes.now))) f.new }
{
    let mut chars = ByteSlice::chars(&bytes);
    let mut left = count;
    while left > 0 {
        let Some(c) = chars.next() else {
            return Ok(());
        };
        f.write_char(c)?;
        left -= 1;
    }
    Ok(())
}

/// Writes the text, or only as many characters as the formatter's precision names.
pub(crate) fn write_lossy<W: fmt::Write>(bytes: &[u8], f: &mut fmt::Formatter<W>) -> fmt::Result
    ensures writes { WritesOnOk W.write_str_gives f.old result (utf8_lossy bytes.now) f.new }
    ensures styled { WritesStyledOnOk W.write_str_gives f.old result
        (lossy_text (spec_precision (formatter_spec f.old)) bytes.now) f.new }
{
    match f.precision() {
        None => write_whole(bytes, f),
        Some(count) => write_front(bytes, count, f),
    }
}
