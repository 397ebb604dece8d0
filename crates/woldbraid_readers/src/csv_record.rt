//! `CsvRecord`: a record of comma-separated values, or why there is none, as a plain struct.

ghost use Rattle.std.specs.Prelude.{◌≡◌, ◌+◌, ◌++◌, ◌∷◌, [], length, OnOk};
ghost use Rattle.csv.specs.Records.{fields_of};
ghost use Rattle.woldbraid_readers.specs.Records.{joined, ends_of};

use format_csv::ByteRecord;
use std::alloc::AllocError;

/// A record, or why there is none.
#[repr(C)]
#[derive(Drop)]
pub struct CsvRecord {
    /// Where the bytes of its fields lie, one field after the other, until the next call
    pub text: *const u8,
    /// Where the numbers lie that say at which offset of these bytes each field ends
    pub ends: *const usize,
    /// How many fields there are; 0 if there is no record
    pub count: usize,
    /// The place of an error in the joined input, as an offset in bytes, else 0
    pub place: usize,
}

// Copies the fields of a record, and the offset at which each ends.
pub(crate) fn copy_fields(
    row: &ByteRecord,
    text: &mut Vec<u8>,
    ends: &mut Vec<usize>,
) -> Result<(), AllocError>
    ensures text { OnOk result (text.new.items ≡ joined (fields_of row.now)) }
    ensures ends { OnOk result (ends.new.items ≡ ends_of (fields_of row.now)) }
{
    text.clear();
    ends.clear();
    'fields: for i in 0..row.len() {
        if let Some(field) = row.get(i) {
            append_field(field, text, ends)?;
        }
    }
    Ok(())
}

// Appends a field, and the offset at which it ends.
fn append_field(field: &[u8], text: &mut Vec<u8>, ends: &mut Vec<usize>) -> Result<(), AllocError>
    ensures text { OnOk result (text.new.items ≡ text.old.items ++ field.now) }
    ensures ends { OnOk result (ends.new.items
        ≡ ends.old.items ++ (length text.old.items + length field.now) ∷ []) }
{
    text.extend_from_slice(field)?;
    ends.push(text.len())?;
    Ok(())
}
