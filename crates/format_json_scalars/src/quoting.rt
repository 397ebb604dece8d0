//! Writing a string.

ghost use Rattle.std.specs.Prelude.{◌≡◌, ◌++◌, ◌<◌, OnOk, OnErr};
ghost use Rattle.std.specs.Char.{digit_char};
ghost use Rattle.format_json_scalars.specs.Quoting.{letter_of, written_byte, written_string};
ghost use Rattle.format_json_scalars.specs.Quoting.{Extends};

use std::alloc::AllocError;

// Returns the letter that stands for the byte after a backslash, where the byte needs one.
fn letter_of(byte: u8) -> Option<u8>
    ensures { result ≡ letter_of byte }
{
    match byte {
        b'"' | b'\\' => Some(byte),
        0x8 => Some(b'b'),
        0xC => Some(b'f'),
        b'\n' => Some(b'n'),
        b'\r' => Some(b'r'),
        b'\t' => Some(b't'),
        _ => None,
    }
}

// Returns the hexadecimal digit of a number below 16.
fn digit_char(number: u8) -> u8
    requires { number < 16 }
    ensures { result ≡ digit_char number }
{
    if number < 10 {
        return b'0' + number;
    }
    b'a' + (number - 10)
}

// Appends a byte of a string, as an escape where it is a quote, a backslash or a control character.
fn append_byte(byte: u8, bytes: &mut Vec<u8>) -> Result<(), AllocError>
    ensures written { OnOk result (bytes.new.items ≡ bytes.old.items ++ written_byte byte) }
    ensures refused { OnErr result (bytes.new.items ≡ bytes.old.items) }
{
    if let Some(letter) = letter_of(byte) {
        bytes.extend_from_slice(&[b'\\', letter])?;
        return Ok(());
    }
    if byte < 0x20 {
        bytes.extend_from_slice(&[
            b'\\',
            b'u',
            b'0',
            b'0',
            digit_char(byte / 16),
            digit_char(byte % 16),
        ])?;
        return Ok(());
    }
    bytes.push(byte)?;
    Ok(())
}

/// Appends a string between quotes, or a prefix of that if memory is refused.
pub fn append_string(text: &str, bytes: &mut Vec<u8>) -> Result<(), AllocError>
    ensures written { OnOk result (bytes.new.items
        ≡ bytes.old.items ++ written_string text.now) }
    ensures refused { OnErr result (Extends bytes.old.items bytes.new.items) }
{
    bytes.push(b'"')?;
    for byte in text.as_bytes() {
        append_byte(*byte, bytes)?;
    }
    bytes.push(b'"')?;
    Ok(())
}

/// Appends a string as JSON writes it: between quotes, with escapes for quotes, backslashes and
/// control characters, and all other characters as they are. When memory is refused, the bytes
/// stay as they were.
pub fn write_string(text: &str, bytes: &mut Vec<u8>) -> Result<(), AllocError>
    ensures written { OnOk result (bytes.new.items
        ≡ bytes.old.items ++ written_string text.now) }
    ensures refused { OnErr result (bytes.new.items ≡ bytes.old.items) }
{
    let length = bytes.len();
    match append_string(text, bytes) {
        Ok(()) => Ok(()),
        Err(refused) => {
            bytes.truncate(length);
            Err(refused)
        }
    }
}
