//! The debug text of bytes and of characters, with escapes: `write_escaped`.

ghost use Rattle.std.specs.Prelude.{◌<◌, ◌∷◌, [], ◌++◌, false, codes, IsTrue};
ghost use Rattle.std.specs.Fmt.{WritesOnOk, WritesStyledOnOk, DisplaysOnOk, DisplaysStyledOnOk};
ghost use Rattle.std.specs.Fmt.{formatter_spec, spec_alternate, digits, digit_glyph};
ghost use Rattle.std.specs.List.{flat_map};
ghost use Rattle.winnow_kinds.specs.Escapes.{escape, is_ascii, debug_text, styled_debug_text};

use crate::digits::hex_digit;
use std::fmt;

/// Writes a character as it stands in a debug text.
#[doc(hidden)]
pub fn write_escaped<W: fmt::Write>(c: char, f: &mut fmt::Formatter<W>) -> fmt::Result
    ensures writes { c < 128 → WritesOnOk W.write_str_gives f.old result (escape c) f.new }
    ensures styled { c < 128 → WritesStyledOnOk W.write_str_gives f.old result (escape c) f.new }
{
    match c {
        '\0' => f.write_str("\\0"),
        '\t' => f.write_str("\\t"),
        '\r' => f.write_str("\\r"),
        '\n' => f.write_str("\\n"),
        '\'' => f.write_str("\\'"),
        '"' => f.write_str("\\\""),
        '\\' => f.write_str("\\\\"),
        ' '..='~' => f.write_char(c),
        '\u{80}'.. => write_past_ascii(c, f),
        control => write_code(control as u8, f),
    }
}

fn write_code<W: fmt::Write>(code: u8, f: &mut fmt::Formatter<W>) -> fmt::Result
    ensures writes { WritesOnOk W.write_str_gives f.old result
        (codes "\\u{" ++ digits 16 false code ++ codes "}") f.new }
    ensures styled { WritesStyledOnOk W.write_str_gives f.old result
        (codes "\\u{" ++ digits 16 false code ++ codes "}") f.new }
{
    f.write_str("\\u{")?;
    write_digits(code, f)?;
    f.write_str("}")
}

fn write_digits<W: fmt::Write>(code: u8, f: &mut fmt::Formatter<W>) -> fmt::Result
    ensures writes { WritesOnOk W.write_str_gives f.old result (digits 16 false code) f.new }
    ensures styled { WritesStyledOnOk W.write_str_gives f.old result (digits 16 false code) f.new }
{
    if code < 16 {
        return write_digit(code, f);
    }
    write_digit(code / 16, f)?;
    write_digit(code % 16, f)
}

fn write_digit<W: fmt::Write>(value: u8, f: &mut fmt::Formatter<W>) -> fmt::Result
    requires { value < 16 }
    ensures { WritesStyledOnOk W.write_str_gives f.old result (digit_glyph false value ∷ []) f.new }
{
    f.write_char(char::from(hex_digit(value, false)))
}

fn write_past_ascii<W: fmt::Write>(c: char, f: &mut fmt::Formatter<W>) -> fmt::Result {
    for part in c.escape_debug() {
        f.write_char(part)?;
    }
    Ok(())
}

/// Writes the escaped bytes, each as the character of its number.
fn write_bytes<W: fmt::Write>(bytes: &[u8], f: &mut fmt::Formatter<W>) -> fmt::Result
    ensures { IsTrue (is_ascii bytes.now)
        → WritesStyledOnOk W.write_str_gives f.old result (flat_map escape bytes.now) f.new }
{
    for byte in bytes {
        write_escaped(char::from(*byte), f)?;
    }
    Ok(())
}

fn write_quoted<W: fmt::Write>(bytes: &[u8], f: &mut fmt::Formatter<W>) -> fmt::Result
    ensures { IsTrue (is_ascii bytes.now)
        → WritesStyledOnOk W.write_str_gives f.old result
        (codes "\"" ++ (flat_map escape bytes.now ++ codes "\"")) f.new }
{
    f.write_str("\"")?;
    write_bytes(bytes, f)?;
    f.write_str("\"")
}

/// Writes the debug text of the bytes.
pub(crate) fn write_debug<W: fmt::Write>(bytes: &[u8], f: &mut fmt::Formatter<W>) -> fmt::Result
    ensures writes { DisplaysOnOk W.write_str_gives f.old result (debug_text bytes.now) f.new }
    ensures styled { DisplaysStyledOnOk W.write_str_gives f.old result
        (styled_debug_text (spec_alternate (formatter_spec f.old)) bytes.now) f.new }
{
    if f.alternate() {
        write_bytes(bytes, f)
    } else {
        write_quoted(bytes, f)
    }
}
