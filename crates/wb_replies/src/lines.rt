//! The lines that show a reply, of whatever version of the protocol: what `redis-cli` prints of its
//! parts to a terminal.

ghost use Rattle.std.specs.Prelude.{◌≡◌, ◌∷◌, [], ◌++◌, ◌+◌, ◌<◌, ◌≤◌, ◌^◌, length, decimal};
ghost use Rattle.std.specs.Prelude.{replicate, OnOk, IfOk, codes};
ghost use Rattle.std.specs.Fmt.{signed_decimal};
ghost use Rattle.wb_replies.specs.Lines.{hex_digit, letter_after, escaped, quoted, line_of};
ghost use Rattle.wb_replies.specs.Lines.{widened, label, entry_start};

use itoa::Buffer;
use std::alloc::{AllocError, Global};

/// Appends a line with these two parts.
pub fn append_line(kind: &[u8], line: &[u8], text: &mut Vec<u8>) -> Result<(), AllocError>
    ensures { OnOk result (text.new.items ≡ text.old.items ++ line_of kind.now line.now) }
{
    text.extend_from_slice(kind)?;
    text.extend_from_slice(line)?;
    text.push(b'\n')?;
    Ok(())
}

/// Appends a line with an integer.
pub fn append_integer(number: i64, text: &mut Vec<u8>) -> Result<(), AllocError>
    ensures { OnOk result (text.new.items
        ≡ text.old.items ++ line_of (codes "(integer) ") (signed_decimal number)) }
{
    let mut digits = Buffer::new();
    append_line(b"(integer) ", digits.format(number).as_bytes(), text)
}

/// Returns how many digits a number has.
pub fn digits_of(number: usize) -> usize
    ensures digits { result ≡ length (decimal number) }
    ensures few { result ≤ 40 }
{
    let mut digits = Buffer::new();
    digits.format(number).len()
}

/// Returns the margin, wider by this many spaces.
pub fn widened(alloc: Global, margin: &[u8], more: usize) -> Result<Vec<u8>, AllocError>
    ensures { IfOk result (λ wider. wider.items ≡ widened margin.now more) }
{
    let mut wider = Vec::from_slice(alloc, margin)?;
    append_spaces(more, &mut wider)?;
    Ok(wider)
}

// Appends this many spaces.
fn append_spaces(count: usize, text: &mut Vec<u8>) -> Result<(), AllocError>
    ensures { OnOk result (text.new.items ≡ text.old.items ++ replicate count 32) }
{
    for _turn in 0..count {
        text.push(b' ')?;
    }
    Ok(())
}

/// Appends what stands before the entry at this index: the margin, but for the first, and its
/// number with this mark after it.
pub fn append_entry_start(
    mark: u8,
    margin: &[u8],
    width: usize,
    index: usize,
    text: &mut Vec<u8>,
) -> Result<(), AllocError>
    requires { index + 1 < 2 ^ 64 }
    ensures { OnOk result (text.new.items
        ≡ text.old.items ++ entry_start mark margin.now width index) }
{
    if index == 0 {
        return append_label(mark, width, 1, text);
    }
    text.extend_from_slice(margin)?;
    append_label(mark, width, index + 1, text)
}

// Appends the number of an entry, with spaces before it up to the width, and the mark after it.
fn append_label(mark: u8, width: usize, number: usize, text: &mut Vec<u8>) -> Result<(), AllocError>
    ensures { OnOk result (text.new.items ≡ text.old.items ++ label mark width number) }
{
    let mut digits = Buffer::new();
    let digits = digits.format(number).as_bytes();
    append_spaces(width.saturating_sub(digits.len()), text)?;
    text.extend_from_slice(digits)?;
    text.push(mark)?;
    text.push(b' ')?;
    Ok(())
}

/// Appends a line with bytes between quotes, as `redis-cli` escapes them.
pub fn append_quoted(held: &[u8], text: &mut Vec<u8>) -> Result<(), AllocError>
    ensures { OnOk result (text.new.items ≡ text.old.items ++ quoted held.now) }
{
    text.push(b'"')?;
    for byte in held {
        append_escaped(*byte, text)?;
    }
    text.extend_from_slice(b"\"\n")?;
    Ok(())
}

// Appends a byte as it stands between quotes.
fn append_escaped(byte: u8, text: &mut Vec<u8>) -> Result<(), AllocError>
    ensures { OnOk result (text.new.items ≡ text.old.items ++ escaped byte) }
{
    if let Some(letter) = letter_after(byte) {
        text.push(b'\\')?;
        text.push(letter)?;
        return Ok(());
    }
    if b' ' <= byte && byte <= b'~' {
        text.push(byte)?;
        return Ok(());
    }
    text.extend_from_slice(b"\\x")?;
    text.push(hex_digit(byte / 16))?;
    text.push(hex_digit(byte % 16))?;
    Ok(())
}

// Returns what stands after a backslash for a byte that has such a short form.
fn letter_after(byte: u8) -> Option<u8>
    ensures { result ≡ letter_after byte }
{
    match byte {
        b'"' => Some(b'"'),
        b'\\' => Some(b'\\'),
        b'\n' => Some(b'n'),
        b'\r' => Some(b'r'),
        b'\t' => Some(b't'),
        7 => Some(b'a'),
        8 => Some(b'b'),
        _ => None,
    }
}

// Returns the digit of a number below 16.
fn hex_digit(number: u8) -> u8
    requires { number < 16 }
    ensures { result ≡ hex_digit number }
{
    if number < 10 {
        return b'0' + number;
    }
    b'a' + (number - 10)
}
