//! `RespReader`: a reader of the events of replies, which lends the text of each.

ghost use Rattle.std.specs.Prelude.{◌≡◌, ◌+◌, ◌<◌, ◌^◌, [], false, length};
ghost use Rattle.winnow_reader.specs.State.{fed_of, bytes_kept};
ghost use Rattle.format_resp_events.specs.Reading.{new_reader, events_ended, events_unspent};
ghost use Rattle.format_resp_events.specs.Reading.{HasGiven, GivesOn};
ghost use Rattle.woldbraid_readers.specs.RespCalls.{PushesReplies, GivesReplyEvent, KeepsReply};
ghost use Rattle.woldbraid_readers.specs.RespEvents.{ShowsParts, TellsReply};
ghost use Rattle.woldbraid_readers.specs.RespEvents.{reply_status, reply_place, reply_cause};
ghost use Rattle.woldbraid_readers.specs.RespEvents.{cause_status};

use crate::resp_event::{ReplyParts, RespEvent, RespKind, bare, reply_cause_number, reply_parts};
use crate::status::Status;
use format_resp::{Cause, ReplyTo};
use format_resp_events::{EventError, EventReader, ReplyEvent};
use std::alloc::{AllocError, Global};
use winnow_reader::Next;

/// A reader of the events of replies that come in pieces.
///
/// What an event lends stays until the next call.
#[derive(Drop)]
pub struct RespReader {
    /// The reader of events
    pub reader: EventReader,
    /// The text that the last event lends
    pub lent: Vec<u8>,
    /// How many bytes may wait to be read when a piece is pushed
    pub kept: usize,
}

impl RespReader {
    /// Returns a reader that nothing was pushed to, of replies that stand within at most
    /// `limits.depth` arrays and whose texts have at most `limits.longest` bytes.
    pub fn new(alloc: Global, limits: ReplyTo, kept: usize) -> RespReader
        ensures state { result.reader ≡ new_reader limits }
        ensures read { HasGiven result.reader [] [] }
        ensures kept { result.kept ≡ kept }
    {
        RespReader {
            reader: EventReader::new(alloc, limits),
            lent: Vec::new(alloc),
            kept,
        }
    }

    /// Appends a piece to what waits to be read.
    pub fn push(&mut self, piece: &[u8]) -> Status
        ensures { PushesReplies self.old piece.now result self.new }
    {
        if self.reader.has_ended() {
            return Status::Ended;
        }
        if usize::MAX - self.reader.fed() < piece.len() {
            return Status::TooLong;
        }
        if self.kept < self.reader.held() {
            return self.push_to_ahead(piece);
        }
        match self.reader.push(piece) {
            Ok(()) => Status::Ok,
            Err(_) => Status::Refused,
        }
    }

    // Appends a piece, once the bytes that events took are dropped.
    fn push_to_ahead(&mut self, piece: &[u8]) -> Status
        requires goes_on { self.old.reader.replies.ended ≡ false }
        requires fits { fed_of self.old.reader.replies + length piece.now < 2 ^ 64 }
        ensures { PushesReplies self.old piece.now result self.new }
    {
        if self.forget().is_err() {
            return Status::Refused;
        }
        if self.kept < self.reader.held() {
            return Status::Full;
        }
        match self.reader.push(piece) {
            Ok(()) => Status::Ok,
            Err(_) => Status::Refused,
        }
    }

    // Drops the bytes that events took.
    fn forget(&mut self) -> Result<(), AllocError>
        requires goes_on { self.old.reader.replies.ended ≡ false }
        requires fits { fed_of self.old.reader.replies < 2 ^ 64 }
        ensures dropped { self.new.reader ≡ events_unspent self.old.reader }
        ensures rest { KeepsReply self.old self.new }
    {
        self.reader.push(&[])?;
        Ok(())
    }

    /// Notes that nothing more follows.
    pub fn end(&mut self)
        ensures state { self.new.reader ≡ events_ended self.old.reader }
        ensures read { GivesOn self.old.reader [] self.new.reader }
        ensures rest { KeepsReply self.old self.new }
    {
        self.reader.end();
    }

    /// Reads the next event.
    pub fn next_event(&mut self, event: &mut RespEvent) -> Status
        ensures { GivesReplyEvent self.old result event.new self.new }
    {
        let answer = self.reader.next_event();
        self.tell(answer, event)
    }

    /// Returns the length of the joined input so far, in bytes.
    pub fn fed(&self) -> usize
        ensures { result ≡ fed_of self.now.reader.replies }
    {
        self.reader.fed()
    }

    /// Returns how many bytes are kept: those that wait to be read, and those that were read since
    /// the last piece.
    pub fn held(&self) -> usize
        ensures { result ≡ bytes_kept self.now.reader.replies }
    {
        self.reader.held()
    }

    /// Returns how many bytes of the joined input were read.
    pub fn place(&self) -> usize
        ensures { result ≡ self.now.reader.replies.place }
    {
        self.reader.place()
    }

    /// Returns how many arrays are open.
    pub fn level(&self) -> usize
        ensures { result ≡ length self.now.reader.open_arrays }
    {
        self.reader.level()
    }

    // Writes an answer of the reader into an event, and keeps the text that it lends.
    fn tell(
        &mut self,
        answer: Result<Next<ReplyEvent>, EventError>,
        event: &mut RespEvent,
    ) -> Status
        ensures reader { self.new.reader ≡ self.old.reader }
        ensures kept { self.new.kept ≡ self.old.kept }
        ensures tells { TellsReply answer result event.new self.new.lent }
    {
        let alloc = *self.lent.allocator();
        match answer {
            Ok(Next::Value(given)) => {
                self.show(reply_parts(alloc, given), event);
                Status::Ok
            }
            Ok(Next::NeedsMore) => {
                self.show(bare(alloc, RespKind::None), event);
                Status::NeedsMore
            }
            Ok(Next::Done) => {
                self.show(bare(alloc, RespKind::None), event);
                Status::Done
            }
            Err(error) => {
                self.show(bare(alloc, RespKind::None), event);
                place_error(error, event)
            }
        }
    }

    // Lends what is kept of an event.
    fn show(&mut self, parts: ReplyParts, event: &mut RespEvent)
        ensures reader { self.new.reader ≡ self.old.reader }
        ensures kept { self.new.kept ≡ self.old.kept }
        ensures shows { ShowsParts parts event.new self.new.lent }
    {
        self.lent = parts.text;
        *event = RespEvent {
            kind: parts.kind.code(),
            cause: 0,
            text: self.lent.as_ptr(),
            length: self.lent.len(),
            integer: parts.integer,
            count: parts.count,
            place: 0,
        };
    }
}

// Writes the place and the cause of an error into an event, and returns its status.
fn place_error(error: EventError, event: &mut RespEvent) -> Status
    ensures status { result ≡ reply_status error }
    ensures event { event.new ≡ record event.old {
      place = reply_place error;
      cause = reply_cause error;
    } }
{
    event.place = 0;
    event.cause = 0;
    match error {
        EventError::Damaged { place, cause } => {
            event.place = place;
            event.cause = reply_cause_number(cause);
            status_of(cause)
        }
        EventError::Refused(_) => Status::Refused,
    }
}

// Returns the status of a cause.
fn status_of(cause: Cause) -> Status
    ensures { result ≡ cause_status cause }
{
    match cause {
        Cause::EndsInside => Status::EndsEarly,
        Cause::TooDeep => Status::TooDeep,
        _ => Status::Damaged,
    }
}
