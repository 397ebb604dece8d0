//! `CsvWriter`: a writer of records of comma-separated values, field by field.

ghost use Rattle.std.specs.Prelude.{◌≡◌, ◌∷◌, ◌++◌, [], false, OnOk, OnErr};
ghost use Rattle.std.specs.List.{list_any};
ghost use Rattle.format_csv.specs.Fields.{is_special, twice, doubled};
ghost use Rattle.format_csv.specs.Writing.{written_field};
ghost use Rattle.format_json_scalars.specs.Quoting.{Extends};
ghost use Rattle.woldbraid_writers.specs.Records.{table_of, WritesEntry, field_text};
ghost use Rattle.woldbraid_writers.specs.Records.{Field, End};
ghost use Rattle.woldbraid_writers.specs.Lending.{Lends};

use crate::status::Status;
use crate::written::Written;
use std::alloc::{AllocError, Global};

/// A writer of records of comma-separated values.
///
/// A field stands between quotes where it has a quote, a comma, CR or LF, and as it is elsewhere. A
/// record ends with CR LF.
#[derive(Drop)]
pub struct CsvWriter {
    /// What was written and not dropped
    pub text: Vec<u8>,
    /// Whether the last record has a field and goes on
    pub goes_on: bool,
}

impl CsvWriter {
    /// Returns a writer that has written nothing.
    pub fn new(alloc: Global) -> CsvWriter
        ensures text { result.text.items ≡ [] }
        ensures first { result.goes_on ≡ false }
    {
        CsvWriter {
            text: Vec::new(alloc),
            goes_on: false,
        }
    }

    /// Writes a field, after a comma where the record has one.
    pub fn write_field(&mut self, field: &[u8]) -> Status
        ensures { WritesEntry (table_of self.old) (Field field.now) result (table_of self.new) }
    {
        let length = self.text.len();
        if append_next(self.goes_on, field, &mut self.text).is_err() {
            self.text.truncate(length);
            return Status::Refused;
        }
        self.goes_on = true;
        Status::Ok
    }

    /// Ends the record, which must have a field.
    pub fn end_record(&mut self) -> Status
        ensures { WritesEntry (table_of self.old) End result (table_of self.new) }
    {
        if !self.goes_on {
            return Status::Unexpected;
        }
        if self.text.extend_from_slice(b"\r\n").is_err() {
            return Status::Refused;
        }
        self.goes_on = false;
        Status::Ok
    }

    /// Returns what was written and not dropped.
    pub fn written(&self) -> Written
        ensures { Lends self.now.text result }
    {
        Written {
            text: self.text.as_ptr(),
            length: self.text.len(),
        }
    }

    /// Drops what was written. The records go on after it.
    pub fn forget(&mut self)
        ensures text { self.new.text.items ≡ [] }
        ensures goes_on { self.new.goes_on ≡ self.old.goes_on }
    {
        self.text.clear();
    }
}

// Appends a field after the comma that it needs, or a prefix of that if memory is refused.
fn append_next(goes_on: bool, field: &[u8], bytes: &mut Vec<u8>) -> Result<(), AllocError>
    ensures written { OnOk result (bytes.new.items
        ≡ bytes.old.items ++ field_text goes_on field.now) }
    ensures refused { OnErr result (Extends bytes.old.items bytes.new.items) }
{
    if goes_on {
        bytes.push(b',')?;
    }
    append_field(field, bytes)
}

// Appends a field, between quotes where it needs them, or a prefix of that if memory is refused.
fn append_field(field: &[u8], bytes: &mut Vec<u8>) -> Result<(), AllocError>
    ensures written { OnOk result (bytes.new.items ≡ bytes.old.items ++ written_field field.now) }
    ensures refused { OnErr result (Extends bytes.old.items bytes.new.items) }
{
    if needs_quotes(field) {
        return append_quoted(field, bytes);
    }
    bytes.extend_from_slice(field)?;
    Ok(())
}

// Returns whether a byte of the field does not stand for itself outside quotes.
fn needs_quotes(field: &[u8]) -> bool
    ensures { result ≡ list_any is_special field.now }
{
    for byte in field {
        if matches!(byte, b'"' | b',' | b'\r' | b'\n') {
            return true;
        }
    }
    false
}

// Appends the bytes between quotes, with each quote doubled, or a prefix of that if memory is
// refused.
fn append_quoted(field: &[u8], bytes: &mut Vec<u8>) -> Result<(), AllocError>
    ensures written { OnOk result (bytes.new.items
        ≡ bytes.old.items ++ 34 ∷ (doubled field.now ++ 34 ∷ [])) }
    ensures refused { OnErr result (Extends bytes.old.items bytes.new.items) }
{
    bytes.push(b'"')?;
    for byte in field {
        append_byte(*byte, bytes)?;
    }
    bytes.push(b'"')?;
    Ok(())
}

// Appends a byte, twice if it is a quote. When memory is refused, the bytes are what they were.
fn append_byte(byte: u8, bytes: &mut Vec<u8>) -> Result<(), AllocError>
    ensures written { OnOk result (bytes.new.items ≡ bytes.old.items ++ twice byte) }
    ensures refused { OnErr result (bytes.new.items ≡ bytes.old.items) }
{
    if byte == b'"' {
        bytes.extend_from_slice(b"\"\"")?;
        return Ok(());
    }
    bytes.push(byte)?;
    Ok(())
}
