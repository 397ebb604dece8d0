//! `ByteReader`: records, one after the other, from bytes that come in pieces.

use crate::asking::{Asked, ask_record};
use crate::buffers::drop_bytes;
use crate::{Next, ReadError, Record};
use std::alloc::{AllocError, Global};
use std::marker::Model;

/// A reader of records, each read by the same parser, from bytes that come in pieces.
///
/// Contracts see where the next record begins in the joined input, the bytes ahead of it, how many
/// bytes are wanted there, and whether the input has ended.
///
/// A reader is made for a record, pushed pieces, and told of the end:
///
/// ```
/// let mut reader = ByteReader::new(alloc, Row);
/// ..
/// reader.end();
/// ```
#[derive(Drop)]
pub struct ByteReader<R> {
    parser: R,
    kept: Vec<u8>,
    // How many bytes at the front of `kept` records took.
    taken: usize,
    // How many of these they took before the last piece. A later piece moves them away.
    stale: usize,
    // How many bytes were moved away.
    base: usize,
    // How many bytes are to be ahead before the record is asked again.
    wanted: usize,
    ended: bool,
}

impl<R> Model for ByteReader<R> {
    ghost use Rattle.std.specs.Prelude.{◌+◌, ◌-◌, ◌≤◌, ◌<◌, ◌^◌, drop, length};
    ghost use Rattle.winnow_reader.specs.State.{ReaderState};

    ghost Value = { ReaderState R };

    ghost view = { λ r. record {
      parser = r.parser;
      place = r.base + r.taken;
      ahead = drop r.taken r.kept.items;
      spent = r.taken - r.stale;
      wanted = r.wanted;
      ended = r.ended;
    } };

    ghost invariant = { λ r. (r.taken ≤ length r.kept.items)
        × (r.base + length r.kept.items < 2 ^ 64) × (r.stale ≤ r.taken)
        × (r.stale + r.stale ≤ length r.kept.items) };
}

impl<R: Record> ByteReader<R> {
    ghost use Rattle.std.specs.Prelude.{◌≡◌, ◌+◌, ◌<◌, ◌^◌, [], false, length, OnOk, OnErr};
    ghost use Rattle.winnow_reader.specs.State.{at_start, pushed, ended_after, unspent, fed_of};
    ghost use Rattle.winnow_reader.specs.Reading.{HasRead, ReadsAlso, ReadsThrough, ReadsOn};
    ghost use Rattle.winnow_reader.specs.Asked.{IsAsked, IsWithin, settled, answer_of};
    ghost use Rattle.winnow_reader.specs.Answering.{ReadsNext, WaitsByNeed};
    ghost use Rattle.winnow_reader.specs.Answering.{StaysTillWanted, IsDoneAtEnd};
    ghost use Rattle.winnow_reader.specs.Telling.{AsksError, TellsError};

    /// Returns a reader that nothing was pushed to.
    pub fn new(alloc: Global, parser: R) -> Self
        ensures state { result ≡ at_start parser }
        ensures read { HasRead R.means result [] [] }
    {
        ByteReader {
            parser,
            kept: Vec::new(alloc),
            taken: 0,
            stale: 0,
            base: 0,
            wanted: 0,
            ended: false,
        }
    }

    /// Appends a piece to what is ahead, and drops what records took. When memory is refused,
    /// nothing else has changed, and the same piece may be pushed again.
    pub fn push(&mut self, piece: &[u8]) -> Result<(), AllocError>
        requires goes_on { self.old.ended ≡ false }
        requires fits { fed_of self.old + length piece.now < 2 ^ 64 }
        ensures ok { OnOk result (self.new ≡ pushed self.old piece.now) }
        ensures read { OnOk result (ReadsAlso R.means self.old piece.now self.new) }
        ensures refused { OnErr result (self.new ≡ unspent self.old) }
    {
        self.append(piece)?;
        Ok(())
    }

    // Appends a piece, and says what that makes of the reader alone.
    fn append(&mut self, piece: &[u8]) -> Result<(), AllocError>
        requires { fed_of self.old + length piece.now < 2 ^ 64 }
        ensures ok { OnOk result (self.new ≡ pushed self.old piece.now) }
        ensures refused { OnErr result (self.new ≡ unspent self.old) }
    {
        self.forget();
        self.kept.extend_from_slice(piece)?;
        Ok(())
    }

    // Drops what records took. They are moved away once they are at least as many as the bytes
    // ahead: so moving costs no more than those that go, however long the others wait.
    fn forget(&mut self)
        ensures { self.new ≡ unspent self.old }
    {
        if self.taken >= self.kept.len() - self.taken {
            drop_bytes(&mut self.kept, self.taken);
            self.base += self.taken;
            self.taken = 0;
        }
        self.stale = self.taken;
    }

    /// Reads the next record. After anything but a value all that is ahead is still there, and the
    /// call may be made again.
    ///
    /// A record that needed more is not asked again before as many bytes came, or the end: until
    /// then the call needs more, and changes nothing. At the end it is asked with nothing to
    /// follow, and never needs more.
    pub fn read_next(&mut self) -> Result<Next<R::Output>, ReadError<R::Error>>
        requires { R.ready self.old.parser }
        ensures read { ReadsOn R.means self.old result self.new }
        ensures next { ReadsNext R.means (WaitsByNeed R.means) self.old result self.new }
        ensures early { StaysTillWanted self.old result self.new }
        ensures done { IsDoneAtEnd self.old result }
        ensures error { TellsError R.errors self.old result }
    {
        let asked = self.ask();
        self.settle(asked)
    }

    // Asks the record, unless what is ahead is known to be too short, or nothing remains.
    fn ask(&self) -> Asked<R::Output, R::Error>
        requires { R.ready self.now.parser }
        ensures answer { IsAsked (R.means self.now.parser) self.now result }
        ensures error { AsksError (R.errors self.now.parser) self.now.place self.now.ahead
            self.now.ended result }
    {
        let ahead = &self.kept[self.taken..];
        if self.ended && ahead.is_empty() {
            return Asked::Done;
        }
        if !self.ended && ahead.len() < self.wanted {
            return Asked::Waits(self.wanted);
        }
        let alloc = *self.kept.allocator();
        let place = self.base + self.taken;
        ask_record(&self.parser, alloc, ahead, place, self.ended)
    }

    // Moves on as the answer says, and hands it out.
    fn settle(
        &mut self,
        asked: Asked<R::Output, R::Error>,
    ) -> Result<Next<R::Output>, ReadError<R::Error>>
        requires { IsWithin self.old asked }
        ensures state { self.new ≡ settled self.old asked }
        ensures answer { result ≡ answer_of self.old.place asked }
    {
        match asked {
            Asked::Value(value, taken) => {
                self.taken += taken;
                self.wanted = 0;
                Ok(Next::Value(value))
            }
            Asked::Waits(wanted) => {
                self.wanted = wanted;
                Ok(Next::NeedsMore)
            }
            Asked::Done => Ok(Next::Done),
            Asked::Failed(error, place, is_cut) => {
                Err(ReadError::Failed {
                    error,
                    place,
                    is_cut,
                })
            }
            Asked::Idle => Err(ReadError::TakesNothing {
                place: self.base + self.taken,
            }),
            Asked::Refused(refused) => Err(ReadError::Refused(refused)),
        }
    }

    /// Notes that nothing more follows.
    pub fn end(&mut self)
        ensures state { self.new ≡ ended_after self.old }
        ensures read { ReadsThrough R.means self.old self.new }
    {
        self.ended = true;
    }
}

impl<R> ByteReader<R> {
    ghost use Rattle.std.specs.Prelude.{◌≡◌, ◌+◌, ◌≤◌, length};
    ghost use Rattle.winnow_reader.specs.State.{bytes_kept, fed_of};
    ghost use Rattle.winnow_reader.specs.Skips.{skipped};

    /// Returns how many bytes are kept: those ahead, and those that records took since the last
    /// piece.
    pub fn held(&self) -> usize
        ensures { result ≡ bytes_kept self.now }
    {
        self.kept.len() - self.stale
    }

    /// Returns how many bytes are in the buffer: those of [`held`](Self::held), and at most as many
    /// that earlier records took and that no piece has moved away yet.
    pub fn buffered(&self) -> usize
        ensures held { bytes_kept self.now ≤ result }
        ensures twice { result ≤ bytes_kept self.now + bytes_kept self.now }
    {
        self.kept.len()
    }

    /// Returns the record that is read.
    pub fn parser(&self) -> &R
        ensures { result.now ≡ self.now.parser }
    {
        &self.parser
    }

    /// Returns where the next record begins in the joined input: how many bytes records took.
    pub fn place(&self) -> usize
        ensures { result ≡ self.now.place }
    {
        self.base + self.taken
    }

    /// Returns the length of the joined input so far.
    pub fn fed(&self) -> usize
        ensures { result ≡ fed_of self.now }
    {
        self.base + self.kept.len()
    }

    // Drops the next n bytes, and wants nothing.
    pub(crate) fn drop_ahead(&mut self, n: usize)
        requires { n ≤ length self.old.ahead }
        ensures { self.new ≡ skipped self.old n }
    {
        self.taken += n;
        self.wanted = 0;
    }

    /// Returns the bytes that no record took yet.
    pub fn ahead(&self) -> &[u8]
        ensures { result.now ≡ self.now.ahead }
    {
        &self.kept[self.taken..]
    }

    /// Returns whether the input has ended.
    pub fn has_ended(&self) -> bool
        ensures { result ≡ self.now.ended }
    {
        self.ended
    }
}
