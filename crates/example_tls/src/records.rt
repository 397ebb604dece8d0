//! The format of a record, by those of its fields.

ghost use Rattle.example_tls.specs.Codes.{content_code};

use winnow_codec::{
    AtMost, Be, ByCode, BytesAfter, Coded, Count, Fields, OneByte, Struct, Unwritten, at_most,
    be_u16, by_code_of, byte, bytes_after, count_of, struct_of, write_three,
};

/// What a record has.
#[derive(Clone, Copy, Debug, PartialEq, Eq)]
pub enum ContentType {
    /// A change of keys
    ChangeCipherSpec,
    /// A warning or an error
    Alert,
    /// A part of the handshake
    Handshake,
    /// Data of the application
    ApplicationData,
}

impl Coded<u8> for ContentType {
    ghost code = { content_code };

    fn from_code(number: u8) -> Option<Self> {
        match number {
            20 => Some(ContentType::ChangeCipherSpec),
            21 => Some(ContentType::Alert),
            22 => Some(ContentType::Handshake),
            23 => Some(ContentType::ApplicationData),
            _ => None,
        }
    }

    fn to_code(&self) -> u8 {
        match self {
            ContentType::ChangeCipherSpec => 20,
            ContentType::Alert => 21,
            ContentType::Handshake => 22,
            ContentType::ApplicationData => 23,
        }
    }
}

/// A record of TLS.
#[derive(Debug, Drop)]
pub struct TlsRecord {
    /// What it has
    pub kind: ContentType,
    /// The version, which is not used
    pub version: u16,
    /// Its bytes, at most 16640
    pub fragment: Vec<u8>,
}

/// The most bytes of a fragment: 2^14, and 256 for what its protection adds.
pub const LONGEST: usize = 16640;

/// The formats of the fields of a record.
pub type TlsFields = (
    ByCode<ContentType, OneByte>,
    Be<u16>,
    BytesAfter<AtMost<LONGEST, Be<Count<u16>>>>,
);

impl Fields for TlsRecord {
    type Format = TlsFields;

    ghost fields = { λ r. (r.kind, r.version, r.fragment) };

    fn from_fields(values: (ContentType, u16, Vec<u8>)) -> Self {
        let (kind, version, fragment) = values;
        TlsRecord {
            kind,
            version,
            fragment,
        }
    }

    fn write_fields(&self, format: &TlsFields, bytes: &mut Vec<u8>) -> Result<(), Unwritten> {
        write_three(format, &self.kind, &self.version, &self.fragment, bytes)
    }
}

/// Returns the format of a record.
pub fn tls_record() -> Struct<TlsRecord> {
    let fragment = bytes_after(at_most(count_of(be_u16())));
    struct_of((by_code_of(byte()), be_u16(), fragment))
}
