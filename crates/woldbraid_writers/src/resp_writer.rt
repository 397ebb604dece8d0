//! `RespWriter`: a writer of replies and commands of the Redis protocol, call by call.

ghost use Rattle.std.specs.Prelude.{◌≡◌, ◌∷◌, ◌++◌, [], length, take, decimal, OnOk, OnErr};
ghost use Rattle.std.specs.List.{list_any};
ghost use Rattle.format_resp.specs.Language.{line};
ghost use Rattle.format_resp.specs.Writing.{ends_line};
ghost use Rattle.format_json_scalars.specs.Quoting.{Extends};
ghost use Rattle.woldbraid_writers.specs.Replies.{WritesPart, WritesLine};
ghost use Rattle.woldbraid_writers.specs.Replies.{Simple, Error, Integer, Bulk};
ghost use Rattle.woldbraid_writers.specs.Replies.{NullBulk, Array, NullArray};
ghost use Rattle.woldbraid_writers.specs.Lending.{Lends};

use crate::status::Status;
use crate::written::Written;
use itoa::Buffer;
use std::alloc::{AllocError, Global};

/// A writer of replies and commands.
///
/// An array is its head, with the number of its replies, and then these: nothing counts them. A
/// command is an array of bulk strings.
#[derive(Drop)]
pub struct RespWriter {
    /// What was written and not dropped
    pub text: Vec<u8>,
}

impl RespWriter {
    /// Returns a writer that has written nothing.
    pub fn new(alloc: Global) -> RespWriter
        ensures { result.text.items ≡ [] }
    {
        RespWriter {
            text: Vec::new(alloc),
        }
    }

    /// Writes a simple string, whose text must have neither CR nor LF.
    pub fn write_simple(&mut self, text: &[u8]) -> Status
        ensures { WritesPart self.old.text.items (Simple text.now) result self.new.text.items }
    {
        if has_line_end(text) {
            return Status::LineEnd;
        }
        self.write_line(b'+', text)
    }

    /// Writes an error, whose text must have neither CR nor LF.
    pub fn write_error(&mut self, text: &[u8]) -> Status
        ensures { WritesPart self.old.text.items (Error text.now) result self.new.text.items }
    {
        if has_line_end(text) {
            return Status::LineEnd;
        }
        self.write_line(b'-', text)
    }

    /// Writes an integer.
    pub fn write_integer(&mut self, number: i64) -> Status
        ensures { WritesPart self.old.text.items (Integer number) result self.new.text.items }
    {
        let mut digits = Buffer::new();
        self.write_line(b':', digits.format(number).as_bytes())
    }

    /// Writes a bulk string.
    pub fn write_bulk(&mut self, held: &[u8]) -> Status
        ensures { WritesPart self.old.text.items (Bulk held.now) result self.new.text.items }
    {
        let length = self.text.len();
        if append_bulk(held, &mut self.text).is_err() {
            self.text.truncate(length);
            return Status::Refused;
        }
        Status::Ok
    }

    /// Writes the null that stands for a bulk string.
    pub fn write_null_bulk(&mut self) -> Status
        ensures { WritesPart self.old.text.items NullBulk result self.new.text.items }
    {
        self.write_line(b'$', b"-1")
    }

    /// Writes the head of an array of this number of replies, which come next.
    pub fn write_array(&mut self, count: usize) -> Status
        ensures { WritesPart self.old.text.items (Array count) result self.new.text.items }
    {
        let mut digits = Buffer::new();
        self.write_line(b'*', digits.format(count).as_bytes())
    }

    /// Writes the null that stands for an array.
    pub fn write_null_array(&mut self) -> Status
        ensures { WritesPart self.old.text.items NullArray result self.new.text.items }
    {
        self.write_line(b'*', b"-1")
    }

    /// Returns what was written and not dropped.
    pub fn written(&self) -> Written
        ensures { Lends self.now.text result }
    {
        Written {
            text: self.text.as_ptr(),
            length: self.text.len(),
        }
    }

    /// Drops what was written.
    pub fn forget(&mut self)
        ensures { self.new.text.items ≡ [] }
    {
        self.text.clear();
    }

    /// Keeps the first bytes of what was written, at most this number: a command of which a word
    /// was refused memory is taken back so.
    pub fn cut(&mut self, length: usize)
        ensures { self.new.text.items ≡ take length self.old.text.items }
    {
        self.text.truncate(length);
    }

    // Writes a byte, and a line with the text.
    fn write_line(&mut self, kind: u8, text: &[u8]) -> Status
        ensures { WritesLine self.old.text.items (kind ∷ line text.now) result self.new.text.items }
    {
        let length = self.text.len();
        if append_line(kind, text, &mut self.text).is_err() {
            self.text.truncate(length);
            return Status::Refused;
        }
        Status::Ok
    }
}

// Returns whether a byte of the text is a carriage return or a newline.
fn has_line_end(text: &[u8]) -> bool
    ensures { result ≡ list_any ends_line text.now }
{
    for byte in text {
        if matches!(byte, b'\r' | b'\n') {
            return true;
        }
    }
    false
}

// Appends a byte, and a line with the text, or a prefix of that if memory is refused.
fn append_line(kind: u8, text: &[u8], bytes: &mut Vec<u8>) -> Result<(), AllocError>
    ensures written { OnOk result (bytes.new.items ≡ bytes.old.items ++ kind ∷ line text.now) }
    ensures refused { OnErr result (Extends bytes.old.items bytes.new.items) }
{
    bytes.push(kind)?;
    bytes.extend_from_slice(text)?;
    bytes.extend_from_slice(b"\r\n")?;
    Ok(())
}

// Appends a bulk string, or a prefix of that if memory is refused.
fn append_bulk(held: &[u8], bytes: &mut Vec<u8>) -> Result<(), AllocError>
    ensures written { OnOk result (bytes.new.items
        ≡ bytes.old.items ++ 36 ∷ (line (decimal (length held.now)) ++ line held.now)) }
    ensures refused { OnErr result (Extends bytes.old.items bytes.new.items) }
{
    let mut digits = Buffer::new();
    append_line(b'$', digits.format(held.len()).as_bytes(), bytes)?;
    bytes.extend_from_slice(held)?;
    bytes.extend_from_slice(b"\r\n")?;
    Ok(())
}
