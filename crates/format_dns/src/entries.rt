//! Questions and records, by the formats of their fields.

use crate::{Name, NameFormat, names};
use winnow_codec::{
    Be, BytesAfter, Count, Fields, Struct, Unwritten, be_u16, be_u32, bytes_after, count_of,
    struct_of, write_five, write_three,
};

/// A question (section 4.1.2).
#[derive(Debug, Drop)]
pub struct Question {
    /// The name that is asked for
    pub name: Name,
    /// The type of the records that are asked for, or a QTYPE (section 3.2.3)
    pub kind: u16,
    /// Their class; 1 is the Internet (section 3.2.4)
    pub class: u16,
}

/// A record (section 4.1.3).
#[derive(Debug, Drop)]
pub struct Record {
    /// The name that it is about
    pub name: Name,
    /// The type of its data (section 3.2.2)
    pub kind: u16,
    /// Its class; 1 is the Internet (section 3.2.4)
    pub class: u16,
    /// For how many seconds it may be kept
    pub seconds: u32,
    /// Its data, as they are spelled
    pub data: Vec<u8>,
}

/// The formats of the fields of a question.
pub type QuestionFields = (NameFormat, Be<u16>, Be<u16>);

/// The formats of the fields of a record.
pub type RecordFields = (
    NameFormat,
    Be<u16>,
    Be<u16>,
    Be<u32>,
    BytesAfter<Be<Count<u16>>>,
);

impl Fields for Question {
    type Format = QuestionFields;

    ghost fields = { λ q. (q.name, q.kind, q.class) };

    fn from_fields(values: (Name, u16, u16)) -> Self {
        let (name, kind, class) = values;
        Question { name, kind, class }
    }

    fn write_fields(&self, format: &QuestionFields, bytes: &mut Vec<u8>) -> Result<(), Unwritten> {
        write_three(format, &self.name, &self.kind, &self.class, bytes)
    }
}

impl Fields for Record {
    type Format = RecordFields;

    ghost fields = { λ r. (r.name, r.kind, r.class, r.seconds, r.data) };

    fn from_fields(values: (Name, u16, u16, u32, Vec<u8>)) -> Self {
        let (name, kind, class, seconds, data) = values;
        Record {
            name,
            kind,
            class,
            seconds,
            data,
        }
    }

    fn write_fields(&self, format: &RecordFields, bytes: &mut Vec<u8>) -> Result<(), Unwritten> {
        write_five(
            format,
            &self.name,
            &self.kind,
            &self.class,
            &self.seconds,
            &self.data,
            bytes,
        )
    }
}

/// Returns the format of a question.
pub fn questions() -> Struct<Question> {
    struct_of((names(), be_u16(), be_u16()))
}

/// Returns the format of a record.
pub fn records() -> Struct<Record> {
    let data = bytes_after(count_of(be_u16()));
    struct_of((names(), be_u16(), be_u16(), be_u32(), data))
}
