//! Bytes as hexadecimal digits: `UpperBytes` in capitals, `LowerBytes` in small letters.

ghost use Rattle.std.specs.Prelude.{◌≡◌, true, false, Some};
ghost use Rattle.std.specs.Fmt.{WritesOnOk, WritesStyledOnOk};
ghost use Rattle.winnow_stream_bytes.specs.ByteContents.{upper_contents, lower_contents};
ghost use Rattle.winnow_stream_bytes.specs.Hex.{two_digits, hex_text};

use std::{fmt, str};
use winnow_kinds::hex_digit;

/// Writes two digits for each byte, in capitals if `upper` is set.
fn write_hex<W: fmt::Write>(bytes: &[u8], upper: bool, f: &mut fmt::Formatter<W>) -> fmt::Result
    ensures writes { WritesOnOk W.write_str_gives f.old result (hex_text upper bytes.now) f.new }
    ensures styled { WritesStyledOnOk W.write_str_gives f.old result
        (hex_text upper bytes.now) f.new }
{
    for &byte in bytes {
        write_byte(byte, upper, f)?;
    }
    Ok(())
}

fn write_byte<W: fmt::Write>(byte: u8, upper: bool, f: &mut fmt::Formatter<W>) -> fmt::Result
    ensures { WritesStyledOnOk W.write_str_gives f.old result (two_digits upper byte) f.new }
{
    let digits = [hex_digit(byte / 16, upper), hex_digit(byte % 16, upper)];
    match str::from_utf8(&digits) {
        Ok(digits) => f.write_str(digits),
        // This never happens, because digits are text.
        Err(_) => Err(fmt::Error),
    }
}

/// Bytes that print as two hexadecimal digits each, in capitals, under all format options.
#[derive(Clone, Copy, Debug)]
pub struct UpperBytes<'i> {
    bytes: &'i [u8],
}

impl<'i> UpperBytes<'i> {
    pub(crate) fn new(bytes: &'i [u8]) -> Self
        ensures { upper_contents result ≡ bytes.now }
    {
        UpperBytes { bytes }
    }
}

impl fmt::Display for UpperBytes<'_> {
    ghost output = { λ s. Some (hex_text true (upper_contents s)) };

    ghost styled_output = { λ s _. Some (hex_text true (upper_contents s)) };

    fn fmt<W: fmt::Write>(&self, f: &mut fmt::Formatter<W>) -> fmt::Result {
        write_hex(self.bytes, true, f)
    }
}

/// Bytes that print as two hexadecimal digits each, in small letters, under all format options.
#[derive(Clone, Copy, Debug)]
pub struct LowerBytes<'i> {
    bytes: &'i [u8],
}

impl<'i> LowerBytes<'i> {
    pub(crate) fn new(bytes: &'i [u8]) -> Self
        ensures { lower_contents result ≡ bytes.now }
    {
        LowerBytes { bytes }
    }
}

impl fmt::Display for LowerBytes<'_> {
    ghost output = { λ s. Some (hex_text false (lower_contents s)) };

    ghost styled_output = { λ s _. Some (hex_text false (lower_contents s)) };

    fn fmt<W: fmt::Write>(&self, f: &mut fmt::Formatter<W>) -> fmt::Result {
        write_hex(self.bytes, false, f)
    }
}
