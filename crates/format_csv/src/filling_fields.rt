//! Reading a field into a record.

ghost use Rattle.std.specs.Prelude.{◌≡◌, ◌∷◌, [], ◌+◌, ◌≤◌, true, false, length, drop, IfOk};
ghost use Rattle.format_lemmas.specs.Bytes.{StartsWith};
ghost use Rattle.csv.specs.Records.{fields_of, partial_of};
ghost use Rattle.format_csv.specs.FillingFields.{FillsField, FillsQuoted};

use crate::special::plain_length;
use csv::ByteRecord;
use memchr::memchr;
use std::alloc::AllocError;

// Reads the field with which the bytes begin, and adds its value to the record. Returns the length
// of the field, or `None` if its closing quote is missing.
//
// A value with quotes is put together in memory that is kept for it.
pub(crate) fn read_field(
    bytes: &[u8],
    row: &mut ByteRecord,
    value: &mut Vec<u8>,
) -> Result<Option<usize>, AllocError>
    requires { partial_of row.old ≡ [] }
    ensures field { IfOk result (λ end.
        FillsField bytes.now (fields_of row.old) end (fields_of row.new)) }
    ensures whole { IfOk result (λ end. partial_of row.new ≡ []) }
{
    if has_quote(bytes, 0) {
        return match read_quoted(&bytes[1..], row, value)? {
            Some(length) => Ok(Some(length + 1)),
            None => Ok(None),
        };
    }
    let length = plain_length(bytes);
    row.push_field(&bytes[..length])?;
    Ok(Some(length))
}

// Returns whether a quote stands at an index.
fn has_quote(bytes: &[u8], index: usize) -> bool
    ensures quote { result ≡ true → drop index bytes.now ≡ 34 ∷ drop (index + 1) bytes.now }
    ensures other { result ≡ false → ¬ (StartsWith 34 (drop index bytes.now)) }
{
    if index >= bytes.len() {
        return false;
    }
    bytes[index] == b'"'
}

// Reads the rest of a field after its opening quote.
fn read_quoted(
    inside: &[u8],
    row: &mut ByteRecord,
    value: &mut Vec<u8>,
) -> Result<Option<usize>, AllocError>
    requires { partial_of row.old ≡ [] }
    ensures field { IfOk result (λ end.
        FillsQuoted inside.now (fields_of row.old) end (fields_of row.new)) }
    ensures whole { IfOk result (λ end. partial_of row.new ≡ []) }
{
    let Some(length) = memchr(b'"', inside) else {
        return Ok(None);
    };
    if has_quote(inside, length + 1) {
        return read_doubled(inside, row, value);
    }
    row.push_field(&inside[..length])?;
    Ok(Some(length + 1))
}

// Reads it where a quote in it is doubled: by the chunks between quotes.
fn read_doubled(
    inside: &[u8],
    row: &mut ByteRecord,
    value: &mut Vec<u8>,
) -> Result<Option<usize>, AllocError>
    requires { partial_of row.old ≡ [] }
    ensures field { IfOk result (λ end.
        FillsQuoted inside.now (fields_of row.old) end (fields_of row.new)) }
    ensures whole { IfOk result (λ end. partial_of row.new ≡ []) }
{
    value.clear();
    let mut at = 0;
    loop {
        let rest = &inside[at..];
        let Some(length) = memchr(b'"', rest) else {
            return Ok(None);
        };
        value.extend_from_slice(&rest[..length])?;
        at += length + 1;
        if !has_quote(inside, at) {
            row.push_field(value)?;
            return Ok(Some(at));
        }
        value.push(b'"')?;
        at += 1;
    }
}
