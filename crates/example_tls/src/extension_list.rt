//! The format of the extensions of a handshake: a list within a length in bytes.

use winnow_codec::{
    Be, BytesAfter, Count, Fields, ListToEnd, Struct, Unwritten, WithinCount, be_u16, bytes_after,
    count_of, list_to_end, struct_of, within, write_two,
};

/// An extension of a handshake.
#[derive(Debug, Drop)]
pub struct Extension {
    /// Its number
    pub number: u16,
    /// Its bytes
    pub data: Vec<u8>,
}

/// The formats of the fields of an extension.
pub type ExtensionFields = (Be<u16>, BytesAfter<Be<Count<u16>>>);

impl Fields for Extension {
    type Format = ExtensionFields;

    ghost fields = { λ e. (e.number, e.data) };

    fn from_fields(values: (u16, Vec<u8>)) -> Self {
        let (number, data) = values;
        Extension { number, data }
    }

    fn write_fields(&self, format: &ExtensionFields, bytes: &mut Vec<u8>) -> Result<(), Unwritten> {
        write_two(format, &self.number, &self.data, bytes)
    }
}

/// The format of extensions.
pub type Extensions = WithinCount<Be<Count<u16>>, ListToEnd<Struct<Extension>>>;

/// Returns the format of extensions, after the number of their bytes.
pub fn extensions() -> Extensions {
    let extension = struct_of((be_u16(), bytes_after(count_of(be_u16()))));
    within(count_of(be_u16()), list_to_end(extension))
}
