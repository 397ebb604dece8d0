//! A record as a line.

ghost use Rattle.std.specs.Prelude.{◌≡◌, ◌++◌, ◌∷◌, [], IfOk, OnOk};
ghost use Rattle.format_csv.specs.Writing.{values_in};
ghost use Rattle.example_csv.specs.Lines.{escape, escaped, tabbed, line_of};

use std::alloc::{AllocError, Global};

/// Returns a record as a line: its fields with tabs between them, and a line feed at the end. A
/// backslash, a tab, a line feed and a carriage return are written in two bytes.
pub fn line_of(alloc: Global, fields: &[Vec<u8>]) -> Result<Vec<u8>, AllocError>
    ensures { IfOk result (λ line. line.items ≡ line_of (values_in fields.now)) }
{
    let mut line = Vec::new(alloc);
    if !fields.is_empty() {
        append_fields(&fields[0], &fields[1..], &mut line)?;
    }
    line.push(b'\n')?;
    Ok(line)
}

// Appends the fields with tabs between them.
fn append_fields(first: &[u8], others: &[Vec<u8>], line: &mut Vec<u8>) -> Result<(), AllocError>
    ensures { OnOk result (line.new.items
        ≡ line.old.items ++ tabbed (first.now ∷ values_in others.now)) }
{
    append_field(first, line)?;
    for field in others {
        line.push(b'\t')?;
        append_field(field, line)?;
    }
    Ok(())
}

// Appends a field.
fn append_field(field: &[u8], line: &mut Vec<u8>) -> Result<(), AllocError>
    ensures { OnOk result (line.new.items ≡ line.old.items ++ escaped field.now) }
{
    for byte in field {
        append_byte(*byte, line)?;
    }
    Ok(())
}

// Appends a byte of a field.
fn append_byte(byte: u8, line: &mut Vec<u8>) -> Result<(), AllocError>
    ensures { OnOk result (line.new.items ≡ line.old.items ++ escape byte) }
{
    match byte {
        b'\\' => line.extend_from_slice(b"\\\\"),
        b'\t' => line.extend_from_slice(b"\\t"),
        b'\n' => line.extend_from_slice(b"\\n"),
        b'\r' => line.extend_from_slice(b"\\r"),
        other => match line.push(other) {
            Ok(()) => Ok(()),
            Err(refused) => Err(AllocError::from(refused)),
        },
    }
}
