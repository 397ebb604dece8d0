//! `Excerpt`: the line of a fault.

ghost use Rattle.std.specs.Prelude.{◌≡◌, ◌≤◌, length, take, drop, IfOk};
ghost use Rattle.wb_base.specs.Positions.{line_feeds};
ghost use Rattle.wb_base.specs.Excerpts.{IsExcerpt};

use crate::position::is_inside;
use crate::terminal::{Colours, Painted, Style};
use std::alloc::{AllocError, Global};
use std::{fmt, str};

/// As many bytes of a line are shown on each side of the place.
pub const WIDTH: usize = 120;

/// The line of a place in an input, as far as it is shown: what stands before the place, and what
/// stands from there on.
///
/// Its text is the line, and under it a caret below the character at the place. A control character
/// is shown as U+FFFD, and so is what is not of ASCII in bytes that are no UTF-8.
#[derive(Debug, Drop)]
pub struct Excerpt {
    /// The bytes of the line before the place
    pub before: Vec<u8>,
    /// The bytes of the line from the place on
    pub after: Vec<u8>,
}

impl Excerpt {
    /// Returns the line of the place between these bytes of an input.
    pub fn new(alloc: Global, before: &[u8], rest: &[u8]) -> Result<Excerpt, AllocError>
        ensures { IfOk result (λ excerpt. IsExcerpt before.now rest.now excerpt) }
    {
        let (_, left) = before.split_at(line_start(before));
        let (right, _) = rest.split_at(line_end(rest));
        Ok(Excerpt {
            before: copy_of(alloc, left)?,
            after: copy_of(alloc, right)?,
        })
    }
}

// Returns a copy of the bytes.
fn copy_of(alloc: Global, bytes: &[u8]) -> Result<Vec<u8>, AllocError>
    ensures { IfOk result (λ copy. copy.items ≡ bytes.now) }
{
    let mut copy = Vec::new(alloc);
    copy.extend_from_slice(bytes)?;
    Ok(copy)
}

// Returns where the last line of these bytes begins, or where its last bytes do.
fn line_start(bytes: &[u8]) -> usize
    ensures within { result ≤ length bytes.now }
    ensures line { line_feeds (drop result bytes.now) ≡ 0 }
{
    let length = bytes.len();
    for back in 0..length.min(WIDTH) {
        if bytes[length - back - 1] == b'\n' {
            return length - back;
        }
    }
    length - length.min(WIDTH)
}

// Returns where the first line of these bytes ends, or its first bytes do.
fn line_end(bytes: &[u8]) -> usize
    ensures within { result ≤ length bytes.now }
    ensures line { line_feeds (take result bytes.now) ≡ 0 }
{
    let most = bytes.len().min(WIDTH);
    for end in 0..most {
        if bytes[end] == b'\n' || bytes[end] == b'\r' {
            return end;
        }
    }
    most
}

// Returns the bytes from where a character begins, since a line may be cut inside one.
fn from_character(bytes: &[u8]) -> &[u8] {
    let start = bytes.iter().position(|byte| !is_inside(*byte));
    bytes.get(start.unwrap_or(bytes.len())..).unwrap_or(bytes)
}

// Returns the bytes without a character at their end that is cut.
fn to_character(bytes: &[u8]) -> &[u8] {
    let Err(error) = str::from_utf8(bytes) else {
        return bytes;
    };
    if error.error_len().is_some() {
        return bytes;
    }
    bytes.get(..error.valid_up_to()).unwrap_or(bytes)
}

// Returns what is shown for a character.
fn shown(ch: char) -> char {
    if ch == '\t' || !ch.is_control() {
        return ch;
    }
    '\u{FFFD}'
}

// Writes the bytes as text.
fn write_shown<W: fmt::Write>(bytes: &[u8], f: &mut fmt::Formatter<W>) -> fmt::Result {
    match str::from_utf8(bytes) {
        Ok(text) => write_text(text, f),
        Err(_) => write_bytes(bytes, f),
    }
}

// Writes a text.
fn write_text<W: fmt::Write>(text: &str, f: &mut fmt::Formatter<W>) -> fmt::Result {
    for ch in text.chars() {
        f.write_char(shown(ch))?;
    }
    Ok(())
}

// Writes bytes that are no UTF-8, of which only those of ASCII are shown.
fn write_bytes<W: fmt::Write>(bytes: &[u8], f: &mut fmt::Formatter<W>) -> fmt::Result {
    for byte in bytes {
        if byte.is_ascii() {
            f.write_char(shown(*byte as char))?;
        } else if !is_inside(*byte) {
            f.write_char('\u{FFFD}')?;
        }
    }
    Ok(())
}

// Writes a blank for each character of the bytes, with tabs as they are.
fn write_blanks<W: fmt::Write>(bytes: &[u8], f: &mut fmt::Formatter<W>) -> fmt::Result {
    for byte in bytes {
        if *byte == b'\t' {
            f.write_str("\t")?;
        } else if !is_inside(*byte) {
            f.write_str(" ")?;
        }
    }
    Ok(())
}

impl Excerpt {
    // Writes the text, with the caret in its style where styles are shown.
    pub(crate) fn write_painted<W: fmt::Write>(
        &self,
        colours: Colours,
        f: &mut fmt::Formatter<W>,
    ) -> fmt::Result {
        write_shown(from_character(&self.before), f)?;
        write_shown(to_character(&self.after), f)?;
        f.write_str("\n")?;
        write_blanks(&self.before, f)?;
        let caret = Painted {
            colours,
            style: Style::Caret,
            what: "^",
        };
        write!(f, "{caret}")
    }
}

impl fmt::Display for Excerpt {
    fn fmt<W: fmt::Write>(&self, f: &mut fmt::Formatter<W>) -> fmt::Result {
        self.write_painted(Colours::None, f)
    }
}
