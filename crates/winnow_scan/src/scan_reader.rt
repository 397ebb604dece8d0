//! `ScanReader`: a reader that does not ask its record again until a scan of the bytes says so.

use crate::Scan;
use std::alloc::{AllocError, Global};
use std::marker::Model;
use winnow_reader::{ByteReader, Next, ReadError, Skipped};

/// A reader of records from bytes that come in pieces, as [`ByteReader`]. Once its record needed
/// more, it goes over each byte once, by the scan of the record, before it asks the record again.
///
/// Contracts see of it what they see of a `ByteReader`, and say the same of its calls, but for when
/// more is needed: also while the scan goes on, and then the parser needs more, or has neither a
/// value nor a failure.
///
/// ```
/// let mut reader = ScanReader::new(rt.alloc(), Line);
/// ..
/// reader.end();
/// ```
#[derive(Drop)]
pub struct ScanReader<R: Scan> {
    reader: ByteReader<R>,
    // What the scan keeps of the first bytes ahead, and how many these are.
    state: R::State,
    scanned: usize,
    stage: Stage,
}

// Whether the scan is to go over the bytes ahead before the record is asked.
#[derive(Clone, Copy, Debug, Drop, PartialEq, Eq)]
enum Stage {
    // The record was not asked yet, and may be there whole
    Fresh,
    // The record needed more
    Scans,
    // The scan said that the record may be asked
    Found,
}

// Returns the stage after the record was asked.
fn stage_after<O, E>(stage: Stage, answer: &Result<Next<O>, ReadError<E>>) -> Stage {
    match answer {
        Ok(Next::Value(_)) => Stage::Fresh,
        Ok(Next::NeedsMore) if stage == Stage::Fresh => Stage::Scans,
        _ => stage,
    }
}

impl<R: Scan> Model for ScanReader<R> {
    ghost use Rattle.std.specs.Prelude.{◌≤◌, take, length};
    ghost use Rattle.winnow_reader.specs.State.{ReaderState};

    ghost Value = { ReaderState R };

    ghost view = { λ r. r.reader };

    ghost invariant = { λ r. (r.scanned ≤ length r.reader.ahead)
        × R.scanned r.reader.parser (take r.scanned r.reader.ahead) r.state };
}

impl<R: Scan> ScanReader<R> {
    ghost use Rattle.std.specs.Prelude.{◌≡◌, ◌+◌, ◌<◌, ◌^◌, [], true, false, length, min};
    ghost use Rattle.std.specs.Prelude.{OnOk, OnErr};
    ghost use Rattle.winnow_reader.specs.State.{at_start, pushed, ended_after, unspent, fed_of};
    ghost use Rattle.winnow_reader.specs.Reading.{HasRead, ReadsAlso, ReadsThrough, ReadsOn};
    ghost use Rattle.winnow_reader.specs.Answering.{ReadsNext, StaysTillWanted, IsDoneAtEnd};
    ghost use Rattle.winnow_reader.specs.Telling.{TellsError};
    ghost use Rattle.winnow_reader.specs.Since.{HasReadSince};
    ghost use Rattle.winnow_reader.specs.Skips.{skipped, bytes_skipped, SkipsTo};
    ghost use Rattle.winnow_scan.specs.Waiting.{ScansOn, WaitsByScan};

    /// Returns a reader that nothing was pushed to.
    pub fn new(alloc: Global, parser: R) -> Self
        ensures state { result ≡ at_start parser }
        ensures read { HasRead R.means result [] [] }
    {
        let state = parser.start();
        ScanReader {
            reader: ByteReader::new(alloc, parser),
            state,
            scanned: 0,
            stage: Stage::Fresh,
        }
    }

    /// Appends a piece to what is ahead, and drops what records took. When memory is refused,
    /// nothing else has changed, and the same piece may be pushed again.
    pub fn push(&mut self, piece: &[u8]) -> Result<(), AllocError>
        requires goes_on { self.old.ended ≡ false }
        requires fits { fed_of self.old + length piece.now < 2 ^ 64 }
        ensures ok { OnOk result (self.new ≡ pushed self.old piece.now) }
        ensures read { OnOk result (ReadsAlso R.means self.old piece.now self.new) }
        ensures refused { OnErr result (self.new ≡ unspent self.old) }
    {
        self.reader.push(piece)?;
        Ok(())
    }

    /// Reads the next record. After anything but a value all that is ahead is still there, and the
    /// call may be made again.
    ///
    /// A record that needed more is asked again once the scan of the bytes ahead says so, or at the
    /// end. If it then needs more, it is asked again as by a `ByteReader`.
    pub fn read_next(&mut self) -> Result<Next<R::Output>, ReadError<R::Error>>
        requires { R.ready self.old.parser }
        ensures read { ReadsOn R.means self.old result self.new }
        ensures next { ReadsNext R.means (WaitsByScan R.means R.scanned)
            self.old result self.new }
        ensures early { StaysTillWanted self.old result self.new }
        ensures done { IsDoneAtEnd self.old result }
        ensures error { TellsError R.errors self.old result }
    {
        if self.goes_on() {
            return Ok(Next::NeedsMore);
        }
        self.state = self.reader.parser().start();
        self.scanned = 0;
        let answer = self.reader.read_next();
        self.stage = stage_after(self.stage, &answer);
        answer
    }

    // Returns whether the scan goes on.
    fn goes_on(&mut self) -> bool
        ensures same { self.new ≡ self.old }
        ensures goes { result ≡ true → self.old.ended ≡ false }
        ensures scans { result ≡ true → ScansOn R.means R.scanned self.old }
    {
        if self.stage != Stage::Scans || self.reader.has_ended() {
            return false;
        }
        !self.look()
    }

    // Goes over the bytes ahead that the scan has not seen, and returns whether the record may be
    // asked.
    fn look(&mut self) -> bool
        ensures same { self.new ≡ self.old }
        ensures scans { result ≡ false → ScansOn R.means R.scanned self.old }
    {
        let ahead = self.reader.ahead();
        let parser = self.reader.parser();
        if parser.scan(&mut self.state, &ahead[self.scanned..]) {
            self.state = parser.start();
            self.scanned = 0;
            self.stage = Stage::Found;
            return true;
        }
        self.scanned = ahead.len();
        false
    }

    /// Drops the next bytes, this many or all that are ahead if these are fewer, and returns how
    /// many. The next record begins after them, and so does its scan.
    pub fn skip(&mut self, count: usize) -> usize
        ensures count { result ≡ min count (length self.old.ahead) }
        ensures state { self.new ≡ skipped self.old result }
        ensures read { HasReadSince R.means self.new.place self.new self.new.ahead [] }
    {
        let parser = self.reader.parser();
        self.state = parser.start();
        self.scanned = 0;
        self.stage = Stage::Fresh;
        self.reader.skip(count)
    }

    /// Drops the bytes up to the end of the first occurrence of a literal, and returns how many, as
    /// `skip_to` of a [`ByteReader`] does. The next record begins after the literal, and so does
    /// its scan.
    ///
    /// A log whose lines may be too long goes on after them:
    ///
    /// ```
    /// if skipping && !matches!(reader.skip_to(b"\n"), Skipped::Found(_)) {
    ///     return Ok(true);
    /// }
    /// skipping = false;
    /// match reader.read_next() {
    ///     Ok(Next::Value(line)) => log.lines.push(line.len())?,
    ///     Ok(Next::NeedsMore | Next::Done) => return Ok(false),
    ///     Err(ReadError::Refused(refused)) => return Err(refused),
    ///     Err(_) => {
    ///         log.long.push(reader.place())?;
    ///         skipping = true;
    ///     }
    /// }
    /// ```
    pub fn skip_to(&mut self, literal: &[u8]) -> Skipped
        ensures bytes { SkipsTo literal.now self.old.ended self.old.ahead result }
        ensures state { self.new ≡ skipped self.old (bytes_skipped result) }
        ensures read { HasReadSince R.means self.new.place self.new self.new.ahead [] }
    {
        let parser = self.reader.parser();
        self.state = parser.start();
        self.scanned = 0;
        self.stage = Stage::Fresh;
        self.reader.skip_to(literal)
    }

    /// Notes that nothing more follows.
    pub fn end(&mut self)
        ensures state { self.new ≡ ended_after self.old }
        ensures read { ReadsThrough R.means self.old self.new }
    {
        self.reader.end();
    }
}

impl<R: Scan> ScanReader<R> {
    ghost use Rattle.std.specs.Prelude.{◌≡◌, ◌+◌, ◌≤◌};
    ghost use Rattle.winnow_reader.specs.State.{bytes_kept, fed_of};

    /// Returns how many bytes are kept: those ahead, and those that records took since the last
    /// piece.
    pub fn held(&self) -> usize
        ensures { result ≡ bytes_kept self.now }
    {
        self.reader.held()
    }

    /// Returns how many bytes are in the buffer: those of [`held`](Self::held), and at most as many
    /// that earlier records took and that no piece has moved away yet.
    pub fn buffered(&self) -> usize
        ensures held { bytes_kept self.now ≤ result }
        ensures twice { result ≤ bytes_kept self.now + bytes_kept self.now }
    {
        self.reader.buffered()
    }

    /// Returns where the next record begins in the joined input: how many bytes records took.
    pub fn place(&self) -> usize
        ensures { result ≡ self.now.place }
    {
        self.reader.place()
    }

    /// Returns the length of the joined input so far.
    pub fn fed(&self) -> usize
        ensures { result ≡ fed_of self.now }
    {
        self.reader.fed()
    }

    /// Returns the bytes that no record took yet.
    pub fn ahead(&self) -> &[u8]
        ensures { result.now ≡ self.now.ahead }
    {
        self.reader.ahead()
    }

    /// Returns whether the input has ended.
    pub fn has_ended(&self) -> bool
        ensures { result ≡ self.now.ended }
    {
        self.reader.has_ended()
    }

    /// Returns the record that is read.
    pub fn parser(&self) -> &R
        ensures { result.now ≡ self.now.parser }
    {
        self.reader.parser()
    }
}
