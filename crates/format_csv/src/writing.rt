//! Writing a record.

ghost use Rattle.std.specs.Prelude.{◌≡◌, ◌∷◌, [], ◌++◌, ◌≤◌, length, OnOk, OnErr};
ghost use Rattle.std.specs.List.{list_any};
ghost use Rattle.format_csv.specs.Fields.{is_special, doubled};
ghost use Rattle.format_csv.specs.Writing.{values_in, written_field, written_record, IsReadBack};

use std::alloc::AllocError;

/// Appends a record and CR LF after it. A field stands between quotes where it has a quote, a
/// comma, CR or LF, and as it is elsewhere.
///
/// The record must have a field. When memory is refused, the bytes are what they were.
pub fn write_record(fields: &[Vec<u8>], bytes: &mut Vec<u8>) -> Result<(), AllocError>
    requires some { 1 ≤ length fields.now }
    ensures written { OnOk result (bytes.new.items
        ≡ bytes.old.items ++ (written_record (values_in fields.now) ++ 13 ∷ 10 ∷ [])) }
    ensures read_back { IsReadBack (values_in fields.now)
        (written_record (values_in fields.now) ++ 13 ∷ 10 ∷ []) }
    ensures refused { OnErr result (bytes.new.items ≡ bytes.old.items) }
{
    // The line is made in memory of its own, so a refusal leaves the bytes as they were.
    let mut line = Vec::new(*bytes.allocator());
    append_fields(&fields[0], &fields[1..], &mut line)?;
    line.extend_from_slice(b"\r\n")?;
    bytes.extend_from_slice(&line)
}

// Appends the fields with commas between them.
fn append_fields(first: &[u8], others: &[Vec<u8>], bytes: &mut Vec<u8>) -> Result<(), AllocError>
    ensures { OnOk result (bytes.new.items
        ≡ bytes.old.items ++ written_record (first.now ∷ values_in others.now)) }
{
    append_field(first, bytes)?;
    for field in others {
        bytes.push(b',')?;
        append_field(field, bytes)?;
    }
    Ok(())
}

// Appends a field, between quotes where it needs them.
fn append_field(field: &[u8], bytes: &mut Vec<u8>) -> Result<(), AllocError>
    ensures written { OnOk result (bytes.new.items ≡ bytes.old.items ++ written_field field.now) }
{
    if needs_quotes(field) {
        bytes.push(b'"')?;
        append_doubled(field, bytes)?;
        bytes.push(b'"')?;
        return Ok(());
    }
    bytes.extend_from_slice(field)?;
    Ok(())
}

// Returns whether a byte of the field does not stand for itself outside quotes.
fn needs_quotes(field: &[u8]) -> bool
    ensures { result ≡ list_any is_special field.now }
{
    for byte in field {
        if matches!(byte, b'"' | b',' | b'\r' | b'\n') {
            return true;
        }
    }
    false
}

// Appends the bytes, with each quote doubled.
fn append_doubled(field: &[u8], bytes: &mut Vec<u8>) -> Result<(), AllocError>
    ensures written { OnOk result (bytes.new.items ≡ bytes.old.items ++ doubled field.now) }
{
    for byte in field {
        if *byte == b'"' {
            bytes.push(b'"')?;
        }
        bytes.push(*byte)?;
    }
    Ok(())
}
