//! `Kept`: a reader of one of the formats, as a handle of C holds it.

ghost use Rattle.std.specs.Prelude.{◌≡◌};
ghost use Rattle.woldbraid_readers.specs.KeptCalls.{PushesKept, EndsKept};
ghost use Rattle.woldbraid_readers.specs.KeptCalls.{ReadsEvent, ReadsRow, ReadsReply};
ghost use Rattle.woldbraid_readers.specs.KeptCalls.{fed_kept, held_kept, place_kept, level_kept};

use crate::csv_reader::CsvReader;
use crate::csv_record::CsvRecord;
use crate::json_event::JsonEvent;
use crate::json_reader::JsonReader;
use crate::resp_event::RespEvent;
use crate::resp_reader::RespReader;
use crate::status::Status;

/// A reader of one of the formats of the C library.
#[derive(Drop)]
pub enum Kept {
    /// A reader of the events of a JSON text
    Json(JsonReader),
    /// A reader of records of comma-separated values
    Csv(CsvReader),
    /// A reader of the events of replies of the Redis protocol
    Resp(RespReader),
}

impl Kept {
    /// Appends a piece to what waits to be read.
    pub fn push(&mut self, piece: &[u8]) -> Status
        ensures { PushesKept self.old piece.now result self.new }
    {
        match self {
            Kept::Json(reader) => reader.push(piece),
            Kept::Csv(reader) => reader.push(piece),
            Kept::Resp(reader) => reader.push(piece),
        }
    }

    /// Notes that nothing more follows.
    pub fn end(&mut self)
        ensures { EndsKept self.old self.new }
    {
        match self {
            Kept::Json(reader) => reader.end(),
            Kept::Csv(reader) => reader.end(),
            Kept::Resp(reader) => reader.end(),
        }
    }

    /// Reads the next event of a JSON text.
    pub fn next_event(&mut self, event: &mut JsonEvent) -> Status
        ensures { ReadsEvent self.old result event.new self.new }
    {
        match self {
            Kept::Json(reader) => reader.next_event(event),
            Kept::Csv(_) | Kept::Resp(_) => Status::OtherFormat,
        }
    }

    /// Reads the next record of comma-separated values.
    pub fn next_record(&mut self, shown: &mut CsvRecord) -> Status
        ensures { ReadsRow self.old result shown.new self.new }
    {
        match self {
            Kept::Csv(reader) => reader.next_record(shown),
            Kept::Json(_) | Kept::Resp(_) => Status::OtherFormat,
        }
    }

    /// Reads the next event of replies.
    pub fn next_reply(&mut self, event: &mut RespEvent) -> Status
        ensures { ReadsReply self.old result event.new self.new }
    {
        match self {
            Kept::Resp(reader) => reader.next_event(event),
            Kept::Json(_) | Kept::Csv(_) => Status::OtherFormat,
        }
    }

    /// Returns the length of the joined input so far, in bytes.
    pub fn fed(&self) -> usize
        ensures { result ≡ fed_kept self.now }
    {
        match self {
            Kept::Json(reader) => reader.fed(),
            Kept::Csv(reader) => reader.fed(),
            Kept::Resp(reader) => reader.fed(),
        }
    }

    /// Returns how many bytes of the input are kept.
    pub fn held(&self) -> usize
        ensures { result ≡ held_kept self.now }
    {
        match self {
            Kept::Json(reader) => reader.held(),
            Kept::Csv(reader) => reader.held(),
            Kept::Resp(reader) => reader.held(),
        }
    }

    /// Returns how many bytes of the joined input were read.
    pub fn place(&self) -> usize
        ensures { result ≡ place_kept self.now }
    {
        match self {
            Kept::Json(reader) => reader.place(),
            Kept::Csv(reader) => reader.place(),
            Kept::Resp(reader) => reader.place(),
        }
    }

    /// Returns how many arrays and objects are open, or 0 of comma-separated values.
    pub fn level(&self) -> usize
        ensures { result ≡ level_kept self.now }
    {
        match self {
            Kept::Json(reader) => reader.level(),
            Kept::Csv(_) => 0,
            Kept::Resp(reader) => reader.level(),
        }
    }
}
