//! `Writer`: a writer of one of the formats, as a handle of C holds it.

ghost use Rattle.std.specs.Prelude.{◌≡◌};
ghost use Rattle.std.specs.Fmt.{signed_decimal};
ghost use Rattle.format_json.specs.Language.{null_word, bool_word};
ghost use Rattle.woldbraid_writers.specs.Drafts.{Word, Number, Quoted, Name, Start, Finish};
ghost use Rattle.woldbraid_writers.specs.Records.{Field, End};
ghost use Rattle.woldbraid_writers.specs.Replies.{Simple, Error, Integer, Bulk};
ghost use Rattle.woldbraid_writers.specs.Replies.{NullBulk, Array, NullArray};
ghost use Rattle.woldbraid_writers.specs.WriterCalls.{WritesJson, WritesCsv, WritesResp};
ghost use Rattle.woldbraid_writers.specs.WriterCalls.{LendsWritten, ForgetsAll, KeepsFirst};
ghost use Rattle.woldbraid_writers.specs.WriterCalls.{level_of, whole_of};

use crate::csv_writer::CsvWriter;
use crate::due::Bracket;
use crate::json_writer::JsonWriter;
use crate::resp_writer::RespWriter;
use crate::status::Status;
use crate::written::Written;

/// A writer of one of the formats of the C library.
#[derive(Drop)]
pub enum Writer {
    /// A generator of a JSON text
    Json(JsonWriter),
    /// A writer of records of comma-separated values
    Csv(CsvWriter),
    /// A writer of replies and commands of the Redis protocol
    Resp(RespWriter),
}

impl Writer {
    /// Writes `null`.
    pub fn json_null(&mut self) -> Status
        ensures { WritesJson self.old (Word null_word) result self.new }
    {
        match self {
            Writer::Json(writer) => writer.write_null(),
            Writer::Csv(_) | Writer::Resp(_) => Status::OtherFormat,
        }
    }

    /// Writes `true` or `false`.
    pub fn json_bool(&mut self, value: bool) -> Status
        ensures { WritesJson self.old (Word (bool_word value)) result self.new }
    {
        match self {
            Writer::Json(writer) => writer.write_bool(value),
            Writer::Csv(_) | Writer::Resp(_) => Status::OtherFormat,
        }
    }

    /// Writes an integer as a value of a JSON text.
    pub fn json_integer(&mut self, number: i64) -> Status
        ensures { WritesJson self.old (Word (signed_decimal number)) result self.new }
    {
        match self {
            Writer::Json(writer) => writer.write_integer(number),
            Writer::Csv(_) | Writer::Resp(_) => Status::OtherFormat,
        }
    }

    /// Writes a number by its text, which must be one of JSON.
    pub fn json_number(&mut self, text: &[u8]) -> Status
        ensures { WritesJson self.old (Number text.now) result self.new }
    {
        match self {
            Writer::Json(writer) => writer.write_number(text),
            Writer::Csv(_) | Writer::Resp(_) => Status::OtherFormat,
        }
    }

    /// Writes a string of these bytes, which must be UTF-8.
    pub fn json_string(&mut self, text: &[u8]) -> Status
        ensures { WritesJson self.old (Quoted text.now) result self.new }
    {
        match self {
            Writer::Json(writer) => writer.write_string(text),
            Writer::Csv(_) | Writer::Resp(_) => Status::OtherFormat,
        }
    }

    /// Writes the name of a member, whose bytes must be UTF-8.
    pub fn json_name(&mut self, text: &[u8]) -> Status
        ensures { WritesJson self.old (Name text.now) result self.new }
    {
        match self {
            Writer::Json(writer) => writer.write_name(text),
            Writer::Csv(_) | Writer::Resp(_) => Status::OtherFormat,
        }
    }

    /// Begins an array or an object.
    pub fn json_start(&mut self, bracket: Bracket) -> Status
        ensures { WritesJson self.old (Start bracket) result self.new }
    {
        match self {
            Writer::Json(writer) => writer.start(bracket),
            Writer::Csv(_) | Writer::Resp(_) => Status::OtherFormat,
        }
    }

    /// Ends the innermost array or object, which must be of this kind.
    pub fn json_finish(&mut self, bracket: Bracket) -> Status
        ensures { WritesJson self.old (Finish bracket) result self.new }
    {
        match self {
            Writer::Json(writer) => writer.finish(bracket),
            Writer::Csv(_) | Writer::Resp(_) => Status::OtherFormat,
        }
    }

    /// Writes a field, after a comma where the record has one.
    pub fn csv_field(&mut self, field: &[u8]) -> Status
        ensures { WritesCsv self.old (Field field.now) result self.new }
    {
        match self {
            Writer::Csv(writer) => writer.write_field(field),
            Writer::Json(_) | Writer::Resp(_) => Status::OtherFormat,
        }
    }

    /// Ends the record, which must have a field.
    pub fn csv_end(&mut self) -> Status
        ensures { WritesCsv self.old End result self.new }
    {
        match self {
            Writer::Csv(writer) => writer.end_record(),
            Writer::Json(_) | Writer::Resp(_) => Status::OtherFormat,
        }
    }

    /// Writes a simple string, whose text must have neither CR nor LF.
    pub fn resp_simple(&mut self, text: &[u8]) -> Status
        ensures { WritesResp self.old (Simple text.now) result self.new }
    {
        match self {
            Writer::Resp(writer) => writer.write_simple(text),
            Writer::Json(_) | Writer::Csv(_) => Status::OtherFormat,
        }
    }

    /// Writes an error, whose text must have neither CR nor LF.
    pub fn resp_error(&mut self, text: &[u8]) -> Status
        ensures { WritesResp self.old (Error text.now) result self.new }
    {
        match self {
            Writer::Resp(writer) => writer.write_error(text),
            Writer::Json(_) | Writer::Csv(_) => Status::OtherFormat,
        }
    }

    /// Writes an integer.
    pub fn resp_integer(&mut self, number: i64) -> Status
        ensures { WritesResp self.old (Integer number) result self.new }
    {
        match self {
            Writer::Resp(writer) => writer.write_integer(number),
            Writer::Json(_) | Writer::Csv(_) => Status::OtherFormat,
        }
    }

    /// Writes a bulk string.
    pub fn resp_bulk(&mut self, held: &[u8]) -> Status
        ensures { WritesResp self.old (Bulk held.now) result self.new }
    {
        match self {
            Writer::Resp(writer) => writer.write_bulk(held),
            Writer::Json(_) | Writer::Csv(_) => Status::OtherFormat,
        }
    }

    /// Writes the null that stands for a bulk string.
    pub fn resp_null_bulk(&mut self) -> Status
        ensures { WritesResp self.old NullBulk result self.new }
    {
        match self {
            Writer::Resp(writer) => writer.write_null_bulk(),
            Writer::Json(_) | Writer::Csv(_) => Status::OtherFormat,
        }
    }

    /// Writes the head of an array of this number of replies, which come next.
    pub fn resp_array(&mut self, count: usize) -> Status
        ensures { WritesResp self.old (Array count) result self.new }
    {
        match self {
            Writer::Resp(writer) => writer.write_array(count),
            Writer::Json(_) | Writer::Csv(_) => Status::OtherFormat,
        }
    }

    /// Writes the null that stands for an array.
    pub fn resp_null_array(&mut self) -> Status
        ensures { WritesResp self.old NullArray result self.new }
    {
        match self {
            Writer::Resp(writer) => writer.write_null_array(),
            Writer::Json(_) | Writer::Csv(_) => Status::OtherFormat,
        }
    }

    /// Returns what was written and not dropped.
    pub fn written(&self) -> Written
        ensures { LendsWritten self.now result }
    {
        match self {
            Writer::Json(writer) => writer.written(),
            Writer::Csv(writer) => writer.written(),
            Writer::Resp(writer) => writer.written(),
        }
    }

    /// Drops what was written. The text goes on after it.
    pub fn forget(&mut self)
        ensures { ForgetsAll self.old self.new }
    {
        match self {
            Writer::Json(writer) => writer.forget(),
            Writer::Csv(writer) => writer.forget(),
            Writer::Resp(writer) => writer.forget(),
        }
    }

    /// Keeps the first bytes of what was written of replies, at most this number.
    pub fn cut(&mut self, length: usize)
        ensures { KeepsFirst self.old length self.new }
    {
        match self {
            Writer::Json(_) => {},
            Writer::Csv(_) => {},
            Writer::Resp(writer) => writer.cut(length),
        }
    }

    /// Returns how many arrays and objects of a JSON text are open, or 0 of another format.
    pub fn level(&self) -> usize
        ensures { result ≡ level_of self.now }
    {
        match self {
            Writer::Json(writer) => writer.level(),
            Writer::Csv(_) => 0,
            Writer::Resp(_) => 0,
        }
    }

    /// Returns whether the JSON text is whole, or the last record has ended.
    pub fn is_whole(&self) -> bool
        ensures { result ≡ whole_of self.now }
    {
        match self {
            Writer::Json(writer) => writer.is_whole(),
            Writer::Csv(writer) => !writer.goes_on,
            Writer::Resp(_) => true,
        }
    }
}
