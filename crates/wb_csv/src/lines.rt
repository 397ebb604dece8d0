//! A record as a line.

ghost use Rattle.std.specs.Prelude.{◌≡◌, ◌++◌, ◌∷◌, [], OnOk, map, ◌<◌, if◌then◌else◌};
ghost use Rattle.std.specs.List.{list_any, flat_map};
ghost use Rattle.csv.specs.Records.{fields_of};
ghost use Rattle.format_csv.specs.Fields.{is_special, doubled};
ghost use Rattle.format_csv.specs.Writing.{written_field};
ghost use Rattle.wb_csv.specs.Lines.{hex_digit, escape, string_of, field_by, field_of, pick};
ghost use Rattle.wb_csv.specs.Lines.{joined, opening, closing, chosen, line_of};

use crate::settings::{Layout, Settings};
use format_csv::ByteRecord;
use std::alloc::AllocError;
use wb_base::exchange;

/// Returns the field of a record with this index, or an empty one if it has none.
pub fn field<'a>(row: &'a ByteRecord, place: usize) -> &'a [u8]
    ensures { result.now ≡ pick (fields_of row.now) place }
{
    match row.get(place) {
        Some(field) => field,
        None => b"",
    }
}

/// Appends the line of a record.
pub fn append_line(
    settings: &Settings,
    row: &ByteRecord,
    text: &mut Vec<u8>,
) -> Result<(), AllocError>
    ensures { OnOk result (text.new.items
        ≡ text.old.items ++ line_of settings.now (fields_of row.now)) }
{
    if settings.layout == Layout::Nothing {
        return Ok(());
    }
    text.extend_from_slice(opening(settings.layout))?;
    append_chosen(settings, row, text)?;
    text.extend_from_slice(closing(settings.layout))?;
    Ok(())
}

// Returns what stands before the fields.
fn opening(layout: Layout) -> &'static [u8]
    ensures { result.now ≡ opening layout }
{
    match layout {
        Layout::Json => b"[",
        _ => b"",
    }
}

// Returns what stands after the fields.
fn closing(layout: Layout) -> &'static [u8]
    ensures { result.now ≡ closing layout }
{
    match layout {
        Layout::Csv => b"\n",
        Layout::Json => b"]\n",
        Layout::Nothing => b"",
    }
}

// Appends the fields that are chosen, with commas between them.
fn append_chosen(
    settings: &Settings,
    row: &ByteRecord,
    text: &mut Vec<u8>,
) -> Result<(), AllocError>
    ensures { OnOk result (text.new.items ≡ text.old.items
        ++ joined (map (field_of settings.now)
        (chosen settings.now.columns.items (fields_of row.now)))) }
{
    if settings.columns.is_empty() {
        append_all(settings, row, text)?;
    } else {
        append_some(settings, &settings.columns, row, text)?;
    }
    Ok(())
}

// Appends all fields.
fn append_all(settings: &Settings, row: &ByteRecord, text: &mut Vec<u8>) -> Result<(), AllocError>
    ensures { OnOk result (text.new.items
        ≡ text.old.items ++ joined (map (field_of settings.now) (fields_of row.now))) }
{
    for place in 0..row.len() {
        append_next(settings, place == 0, row, place, text)?;
    }
    Ok(())
}

// Appends the fields with these indices.
fn append_some(
    settings: &Settings,
    columns: &[usize],
    row: &ByteRecord,
    text: &mut Vec<u8>,
) -> Result<(), AllocError>
    ensures { OnOk result (text.new.items ≡ text.old.items
        ++ joined (map (field_of settings.now) (map (pick (fields_of row.now)) columns.now))) }
{
    for (index, place) in columns.iter().enumerate() {
        append_next(settings, index == 0, row, *place, text)?;
    }
    Ok(())
}

// Appends the field with this index, after a comma unless it is the first of a line.
fn append_next(
    settings: &Settings,
    is_first: bool,
    row: &ByteRecord,
    place: usize,
    text: &mut Vec<u8>,
) -> Result<(), AllocError>
    ensures { OnOk result (text.new.items ≡ text.old.items ++ ((if is_first then [] else 44 ∷ [])
        ++ field_of settings.now (pick (fields_of row.now) place))) }
{
    if !is_first {
        text.push(b',')?;
    }
    append_read(settings, field(row, place), text)?;
    Ok(())
}

// Appends a field that was read, with the delimiter and the comma back in their places.
fn append_read(settings: &Settings, field: &[u8], text: &mut Vec<u8>) -> Result<(), AllocError>
    ensures { OnOk result (text.new.items ≡ text.old.items ++ field_of settings.now field.now) }
{
    if settings.delimiter == b',' {
        append_field(settings.layout, field, text)?;
        return Ok(());
    }
    let mut value = Vec::new(*text.allocator());
    value.extend_from_slice(field)?;
    exchange(b',', settings.delimiter, &mut value);
    append_field(settings.layout, &value, text)?;
    Ok(())
}

// Appends a field.
fn append_field(layout: Layout, field: &[u8], text: &mut Vec<u8>) -> Result<(), AllocError>
    ensures { OnOk result (text.new.items ≡ text.old.items ++ field_by layout field.now) }
{
    match layout {
        Layout::Csv => append_value(field, text),
        Layout::Json => append_string(field, text),
        Layout::Nothing => Ok(()),
    }
}

// Appends a field of CSV, between quotes where it needs them.
fn append_value(field: &[u8], text: &mut Vec<u8>) -> Result<(), AllocError>
    ensures { OnOk result (text.new.items ≡ text.old.items ++ written_field field.now) }
{
    if needs_quotes(field) {
        text.push(b'"')?;
        append_doubled(field, text)?;
        text.push(b'"')?;
        return Ok(());
    }
    text.extend_from_slice(field)?;
    Ok(())
}

// Returns whether a byte of the field does not stand for itself outside quotes.
fn needs_quotes(field: &[u8]) -> bool
    ensures { result ≡ list_any is_special field.now }
{
    for byte in field {
        if matches!(byte, b'"' | b',' | b'\r' | b'\n') {
            return true;
        }
    }
    false
}

// Appends the bytes, with each quote doubled.
fn append_doubled(field: &[u8], text: &mut Vec<u8>) -> Result<(), AllocError>
    ensures { OnOk result (text.new.items ≡ text.old.items ++ doubled field.now) }
{
    for byte in field {
        if *byte == b'"' {
            text.push(b'"')?;
        }
        text.push(*byte)?;
    }
    Ok(())
}

// Appends a field as a string of JSON.
fn append_string(field: &[u8], text: &mut Vec<u8>) -> Result<(), AllocError>
    ensures { OnOk result (text.new.items ≡ text.old.items ++ string_of field.now) }
{
    text.push(b'"')?;
    append_escaped(field, text)?;
    text.push(b'"')?;
    Ok(())
}

// Appends the bytes, with those escaped that a string of JSON cannot have.
fn append_escaped(field: &[u8], text: &mut Vec<u8>) -> Result<(), AllocError>
    ensures { OnOk result (text.new.items ≡ text.old.items ++ flat_map escape field.now) }
{
    for byte in field {
        append_escape(*byte, text)?;
    }
    Ok(())
}

// Appends a byte of a string.
fn append_escape(byte: u8, text: &mut Vec<u8>) -> Result<(), AllocError>
    ensures { OnOk result (text.new.items ≡ text.old.items ++ escape byte) }
{
    if byte == b'"' || byte == b'\\' {
        text.push(b'\\')?;
        text.push(byte)?;
        return Ok(());
    }
    if byte < 32 {
        text.extend_from_slice(b"\\u00")?;
        text.push(hex_digit(byte / 16))?;
        text.push(hex_digit(byte % 16))?;
        return Ok(());
    }
    text.push(byte)?;
    Ok(())
}

// Returns a hexadecimal digit.
fn hex_digit(digit: u8) -> u8
    requires { digit < 16 }
    ensures { result ≡ hex_digit digit }
{
    if digit < 10 {
        b'0' + digit
    } else {
        b'a' + (digit - 10)
    }
}
