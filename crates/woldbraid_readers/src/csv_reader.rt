//! `CsvReader`: a reader of records of comma-separated values, which lends the fields of each.

ghost use Rattle.std.specs.Prelude.{◌≡◌, [], false};
ghost use Rattle.csv.specs.Records.{fields_of};
ghost use Rattle.winnow_reader.specs.State.{ended_after, fed_of, bytes_kept};
ghost use Rattle.format_csv.specs.RowReader.{HasRead, ReadsThrough};
ghost use Rattle.woldbraid_readers.specs.CsvCalls.{PushesRecords, KeepsRecord, GivesRecord};
ghost use Rattle.woldbraid_readers.specs.CsvCalls.{ReadsRecord, TellsAnswer, TellsFields};
ghost use Rattle.woldbraid_readers.specs.Records.{ShowsNoRecord};

use crate::csv_record::{CsvRecord, copy_fields};
use crate::status::Status;
use format_csv::{ByteRecord, RowError, RowReader};
use std::alloc::Global;
use winnow_reader::Next;

/// A reader of records of comma-separated values that come in pieces.
///
/// What a record lends stays until the next call.
#[derive(Drop)]
pub struct CsvReader {
    /// The reader of records
    pub reader: RowReader,
    /// The record that was read last
    pub row: ByteRecord,
    /// Whether that record was read and memory to lend it was refused
    pub waits: bool,
    /// The bytes of the fields that the last record lends
    pub text: Vec<u8>,
    /// The offsets at which these fields end
    pub ends: Vec<usize>,
    /// How many bytes may wait to be read when a piece is pushed
    pub kept: usize,
}

impl CsvReader {
    /// Returns a reader that nothing was pushed to.
    pub fn new(alloc: Global, kept: usize) -> CsvReader
        ensures read { HasRead result.reader [] [] }
        ensures open { result.reader.ended ≡ false }
        ensures waits { result.waits ≡ false }
        ensures kept { result.kept ≡ kept }
    {
        CsvReader {
            reader: RowReader::new(alloc),
            row: ByteRecord::new(alloc),
            waits: false,
            text: Vec::new(alloc),
            ends: Vec::new(alloc),
            kept,
        }
    }

    /// Appends a piece to what waits to be read.
    pub fn push(&mut self, piece: &[u8]) -> Status
        ensures { PushesRecords self.old piece.now result self.new }
    {
        if self.reader.has_ended() {
            return Status::Ended;
        }
        if usize::MAX - self.reader.fed() < piece.len() {
            return Status::TooLong;
        }
        if self.kept < self.reader.ahead().len() {
            return Status::Full;
        }
        match self.reader.push(piece) {
            Ok(()) => Status::Ok,
            Err(_) => Status::Refused,
        }
    }

    /// Notes that nothing more follows.
    pub fn end(&mut self)
        ensures state { self.new.reader ≡ ended_after self.old.reader }
        ensures read { ReadsThrough self.old.reader self.new.reader }
        ensures rest { KeepsRecord self.old self.new }
    {
        self.reader.end();
    }

    /// Reads the next record. If one was read before and not lent, that one is lent.
    pub fn next_record(&mut self, shown: &mut CsvRecord) -> Status
        ensures { GivesRecord self.old result shown.new self.new }
    {
        if self.waits {
            return self.lend(shown);
        }
        self.read_record(shown)
    }

    // Reads the next record, if none waits to be lent.
    fn read_record(&mut self, shown: &mut CsvRecord) -> Status
        requires { self.old.waits ≡ false }
        ensures { ReadsRecord self.old result shown.new self.new }
    {
        let answer = self.reader.read_into(&mut self.row);
        self.tell(answer, shown)
    }

    /// Returns the length of the joined input so far, in bytes.
    pub fn fed(&self) -> usize
        ensures { result ≡ fed_of self.now.reader }
    {
        self.reader.fed()
    }

    /// Returns how many bytes are kept: those that wait to be read, and those that were read since
    /// the last piece.
    pub fn held(&self) -> usize
        ensures { result ≡ bytes_kept self.now.reader }
    {
        self.reader.held()
    }

    /// Returns how many bytes of the joined input were read.
    pub fn place(&self) -> usize
        ensures { result ≡ self.now.reader.place }
    {
        self.reader.place()
    }

    // Writes an answer of the reader into a struct, and lends the record if there is one.
    fn tell(&mut self, answer: Result<Next<()>, RowError>, shown: &mut CsvRecord) -> Status
        requires { self.old.waits ≡ false }
        ensures reader { self.new.reader ≡ self.old.reader }
        ensures kept { self.new.kept ≡ self.old.kept }
        ensures tells { TellsAnswer answer (fields_of self.old.row) result shown.new self.new }
    {
        match answer {
            Ok(Next::Value(())) => self.lend(shown),
            Ok(Next::NeedsMore) => {
                *shown = no_record(0);
                Status::NeedsMore
            }
            Ok(Next::Done) => {
                *shown = no_record(0);
                Status::Done
            }
            Err(RowError::Damaged { place }) => {
                *shown = no_record(place);
                Status::Damaged
            }
            Err(RowError::Refused(_)) => {
                *shown = no_record(0);
                Status::Refused
            }
        }
    }

    // Lends the fields of the record, or notes that it waits for that.
    fn lend(&mut self, shown: &mut CsvRecord) -> Status
        ensures reader { self.new.reader ≡ self.old.reader }
        ensures kept { self.new.kept ≡ self.old.kept }
        ensures tells { TellsFields (fields_of self.old.row) result shown.new self.new }
    {
        if copy_fields(&self.row, &mut self.text, &mut self.ends).is_err() {
            self.waits = true;
            *shown = no_record(0);
            return Status::Refused;
        }
        self.waits = false;
        *shown = CsvRecord {
            text: self.text.as_ptr(),
            ends: self.ends.as_ptr(),
            count: self.row.len(),
            place: 0,
        };
        Status::Ok
    }
}

// Returns a struct that shows no record, and an error at the place.
fn no_record(place: usize) -> CsvRecord
    ensures { ShowsNoRecord place result }
{
    CsvRecord {
        text: std::ptr::null(),
        ends: std::ptr::null(),
        count: 0,
        place,
    }
}
