//! `RowReader`: records, one after the other, from bytes that come in pieces.

ghost use Rattle.std.specs.Prelude.{◌≡◌};

use crate::filling::{Found, fill};
use crate::grammar::Row;
use crate::scan::RowState;
use csv::ByteRecord;
use std::alloc::{AllocError, Global};
use std::marker::Model;
use winnow_reader::{ByteReader, Next};
use winnow_scan::Scan;

/// Why a reader has no record. What it has ahead is as before, so the same call may be made again:
/// damage is found again, and memory may be there then.
#[derive(Debug, Drop)]
pub enum RowError {
    /// The record is damaged
    Damaged {
        /// The offset in the joined input of the byte at which it breaks off, or the length of the
        /// input where a closing quote is missing
        place: usize,
    },
    /// Memory was refused
    Refused(AllocError),
}

/// A reader of records from bytes that come in pieces, into a record that is filled again.
///
/// Contracts see of it what they see of a `ByteReader`: where the next record begins in the joined
/// input, the bytes ahead of it, and whether the input has ended.
///
/// ```
/// let mut reader = RowReader::new(alloc);
/// let mut record = ByteRecord::new(alloc);
/// ..
/// reader.end();
/// ```
#[derive(Drop)]
pub struct RowReader {
    reader: ByteReader<Row>,
    // The value of a field in which a quote is doubled is put together here.
    value: Vec<u8>,
    // What the scan keeps of the first bytes ahead, and how many these are.
    state: RowState,
    scanned: usize,
    stage: Stage,
}

// Whether the scan is to go over the bytes ahead before they are read.
#[derive(Clone, Copy, Debug, Drop, PartialEq, Eq)]
enum Stage {
    // They were not read yet, and a record may be there whole
    Fresh,
    // More was needed
    Scans,
    // The scan said that the record may have ended
    Found,
}

impl Model for RowReader {
    ghost use Rattle.std.specs.Prelude.{◌≡◌, ◌≤◌, take, length, Some};
    ghost use Rattle.winnow_reader.specs.State.{ReaderState};
    ghost use Rattle.format_csv.specs.declared.grammar.Row.{Row};
    ghost use Rattle.format_csv.specs.Scan.{run};
    ghost use Rattle.format_csv.specs.declared.scan.RowState.TheVariants.{Start};

    ghost Value = { ReaderState Row };

    ghost view = { λ r. r.reader };

    ghost invariant = { λ r. (r.scanned ≤ length r.reader.ahead)
        × (run (Some Start) (take r.scanned r.reader.ahead) ≡ Some r.state) };
}

impl RowReader {
    ghost use Rattle.std.specs.Prelude.{◌≡◌, ◌≢◌, ◌+◌, ◌≤◌, ◌<◌, ◌^◌, [], true, false, length};
    ghost use Rattle.std.specs.Prelude.{length as len, OnOk, OnErr, IfOk};
    ghost use Rattle.winnow_reader.specs.State.{pushed, ended_after, unspent, taken_by, fed_of};
    ghost use Rattle.winnow_reader.specs.SameValues.{IsThrough};
    ghost use Rattle.csv.specs.Records.{fields_of};
    ghost use Rattle.format_csv.specs.Filling.{IsUnfinished, Fills};
    ghost use Rattle.format_csv.specs.RowReader.{HasRead, ReadsAlso, ReadsThrough};
    ghost use Rattle.format_csv.specs.RowReader.{ReadsOn, ReadsNext};

    /// Returns a reader that nothing was pushed to.
    pub fn new(alloc: Global) -> Self
        ensures read { HasRead result [] [] }
        ensures open { result.ended ≡ false }
        ensures fed { fed_of result ≡ 0 }
    {
        RowReader {
            reader: ByteReader::new(alloc, Row),
            value: Vec::new(alloc),
            state: RowState::Start,
            scanned: 0,
            stage: Stage::Fresh,
        }
    }

    /// Appends a piece to what is ahead, and drops what records took. When memory is refused,
    /// nothing else has changed, and the same piece may be pushed again.
    pub fn push(&mut self, piece: &[u8]) -> Result<(), AllocError>
        requires goes_on { self.old.ended ≡ false }
        requires fits { fed_of self.old + length piece.now < 2 ^ 64 }
        ensures ok { OnOk result (self.new ≡ pushed self.old piece.now) }
        ensures read { OnOk result (ReadsAlso self.old piece.now self.new) }
        ensures refused { OnErr result (self.new ≡ unspent self.old) }
    {
        self.reader.push(piece)?;
        Ok(())
    }

    /// Notes that nothing more follows.
    pub fn end(&mut self)
        ensures state { self.new ≡ ended_after self.old }
        ensures read { ReadsThrough self.old self.new }
    {
        self.reader.end();
    }

    /// Reads the next record into one that is kept, which loses what it held. Its room stays.
    ///
    /// After anything but a value the record is empty, all that is ahead is still there, and the
    /// call may be made again. So nothing of the input is lost when memory is refused. More is
    /// needed only before the end, and while no record stands ahead and more can make one.
    pub fn read_into(&mut self, row: &mut ByteRecord) -> Result<Next<()>, RowError>
        ensures read { ReadsOn self.old result (fields_of row.new) self.new }
        ensures next { ReadsNext self.old result (fields_of row.new) self.new }
    {
        self.read_next(row)
    }

    // Reads it, and says what that makes of the reader alone.
    fn read_next(&mut self, row: &mut ByteRecord) -> Result<Next<()>, RowError>
        ensures { ReadsNext self.old result (fields_of row.new) self.new }
    {
        row.clear();
        if self.is_through() {
            return Ok(Next::Done);
        }
        if self.goes_on() {
            return Ok(Next::NeedsMore);
        }
        match self.find(row) {
            Ok(Found::Record(length)) => {
                self.take(length);
                Ok(Next::Value(()))
            }
            Ok(Found::NeedsMore) => {
                row.clear();
                Ok(Next::NeedsMore)
            }
            Ok(Found::Damaged(offset)) => {
                row.clear();
                let place = self.place_of(offset);
                Err(RowError::Damaged { place })
            }
            Err(refused) => {
                row.clear();
                Err(RowError::Refused(refused))
            }
        }
    }

    // Returns whether the input has ended and nothing remains of it.
    fn is_through(&self) -> bool
        ensures through { result ≡ true → IsThrough self.now }
        ensures not { result ≡ false → self.now.ended ≡ true → self.now.ahead ≢ [] }
    {
        self.reader.has_ended() && self.reader.ahead().is_empty()
    }

    // Fills the record with what is ahead.
    fn find(&mut self, row: &mut ByteRecord) -> Result<Found, AllocError>
        requires { self.old.ended ≡ true → self.old.ahead ≢ [] }
        ensures same { self.new ≡ self.old }
        ensures found { IfOk result (λ found.
            Fills self.old.ended self.old.ahead found (fields_of row.new)) }
    {
        let ended = self.reader.has_ended();
        let answer = fill(self.reader.ahead(), ended, row, &mut self.value);
        if self.stage == Stage::Fresh {
            self.stage = Stage::Scans;
        }
        answer
    }

    // Returns the place of an offset of the bytes ahead.
    fn place_of(&self, offset: usize) -> usize
        requires { offset ≤ len self.now.ahead }
        ensures { result ≡ self.now.place + offset }
    {
        self.reader.fed() - (self.reader.ahead().len() - offset)
    }

    // Moves past a record of this length.
    fn take(&mut self, length: usize)
        requires { length ≤ len self.old.ahead }
        ensures { self.new ≡ taken_by self.old length }
    {
        self.reader.skip(length);
        self.state = RowState::Start;
        self.scanned = 0;
        self.stage = Stage::Fresh;
    }

    // Returns whether the scan goes on.
    fn goes_on(&mut self) -> bool
        ensures same { self.new ≡ self.old }
        ensures scans { result ≡ true → IsUnfinished self.old.ended self.old.ahead }
    {
        if self.stage != Stage::Scans || self.reader.has_ended() {
            return false;
        }
        !self.look()
    }

    // Goes over the bytes ahead that the scan has not seen, and returns whether a record may have
    // ended in them.
    fn look(&mut self) -> bool
        requires { self.old.ended ≡ false }
        ensures same { self.new ≡ self.old }
        ensures scans { result ≡ false → IsUnfinished self.old.ended self.old.ahead }
    {
        let ahead = self.reader.ahead();
        if Row.scan(&mut self.state, &ahead[self.scanned..]) {
            self.state = RowState::Start;
            self.scanned = 0;
            self.stage = Stage::Found;
            return true;
        }
        self.scanned = ahead.len();
        false
    }
}

impl RowReader {
    ghost use Rattle.std.specs.Prelude.{◌≡◌, ◌+◌, ◌≤◌};
    ghost use Rattle.winnow_reader.specs.State.{bytes_kept, fed_of};

    /// Returns how many bytes are kept: those ahead, and those that records took since the last
    /// piece.
    pub fn held(&self) -> usize
        ensures { result ≡ bytes_kept self.now }
    {
        self.reader.held()
    }

    /// Returns where the next record begins in the joined input: how many bytes records took.
    pub fn place(&self) -> usize
        ensures { result ≡ self.now.place }
    {
        self.reader.place()
    }

    /// Returns the length of the joined input so far.
    pub fn fed(&self) -> usize
        ensures { result ≡ fed_of self.now }
    {
        self.reader.fed()
    }

    /// Returns the bytes that no record took yet.
    pub fn ahead(&self) -> &[u8]
        ensures { result.now ≡ self.now.ahead }
    {
        self.reader.ahead()
    }

    /// Returns whether the input has ended.
    pub fn has_ended(&self) -> bool
        ensures { result ≡ self.now.ended }
    {
        self.reader.has_ended()
    }
}
