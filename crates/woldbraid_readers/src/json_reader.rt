//! `JsonReader`: a reader of the events of a JSON text, which lends the text of each.

ghost use Rattle.std.specs.Prelude.{◌≡◌, ◌+◌, ◌<◌, ◌^◌, [], false, length};
ghost use Rattle.winnow_reader.specs.State.{fed_of, bytes_kept};
ghost use Rattle.format_json_events.specs.Reading.{new_reader, events_ended, events_unspent};
ghost use Rattle.format_json_events.specs.Reading.{HasGiven, GivesOn};
ghost use Rattle.woldbraid_readers.specs.Calls.{Pushes, GivesEvent, KeepsRest};
ghost use Rattle.woldbraid_readers.specs.Events.{Shows, TellsAnswer};
ghost use Rattle.woldbraid_readers.specs.Events.{error_status, error_place, error_cause};

use crate::json_event::{JsonEvent, JsonKind, Parts, cause_number, parts_of, plain};
use crate::status::Status;
use format_json_events::{Event, EventError, EventReader};
use std::alloc::{AllocError, Global};
use winnow_reader::Next;

/// A reader of the events of a JSON text that comes in pieces.
///
/// What an event lends stays until the next call.
#[derive(Drop)]
pub struct JsonReader {
    /// The reader of events
    pub reader: EventReader,
    /// The text that the last event lends
    pub lent: Vec<u8>,
    /// How many bytes may wait to be read when a piece is pushed
    pub kept: usize,
}

impl JsonReader {
    /// Returns a reader that nothing was pushed to, of a text whose values stand within at most
    /// `depth` arrays and objects.
    pub fn new(alloc: Global, depth: usize, kept: usize) -> JsonReader
        ensures state { result.reader ≡ new_reader depth }
        ensures read { HasGiven result.reader [] [] }
        ensures kept { result.kept ≡ kept }
    {
        JsonReader {
            reader: EventReader::new(alloc, depth),
            lent: Vec::new(alloc),
            kept,
        }
    }

    /// Appends a piece to what waits to be read.
    #[tactic(auto, using(crate::proofs::lemmas::PushLemmas::unspent_has))]
    pub fn push(&mut self, piece: &[u8]) -> Status
        ensures { Pushes self.old piece.now result self.new }
    {
        if self.reader.has_ended() {
            return Status::Ended;
        }
        if usize::MAX - self.reader.fed() < piece.len() {
            return Status::TooLong;
        }
        if self.kept < self.reader.held() {
            return self.push_to_ahead(piece);
        }
        match self.reader.push(piece) {
            Ok(()) => Status::Ok,
            Err(_) => Status::Refused,
        }
    }

    // Appends a piece, once the bytes that tokens took are dropped.
    #[tactic(auto, using(crate::proofs::lemmas::PushLemmas::unspent_has))]
    fn push_to_ahead(&mut self, piece: &[u8]) -> Status
        requires goes_on { self.old.reader.tokens.ended ≡ false }
        requires fits { fed_of self.old.reader.tokens + length piece.now < 2 ^ 64 }
        ensures { Pushes self.old piece.now result self.new }
    {
        if self.forget().is_err() {
            return Status::Refused;
        }
        if self.kept < self.reader.held() {
            return Status::Full;
        }
        match self.reader.push(piece) {
            Ok(()) => Status::Ok,
            Err(_) => Status::Refused,
        }
    }

    // Drops the bytes that tokens took.
    fn forget(&mut self) -> Result<(), AllocError>
        requires goes_on { self.old.reader.tokens.ended ≡ false }
        requires fits { fed_of self.old.reader.tokens < 2 ^ 64 }
        ensures dropped { self.new.reader ≡ events_unspent self.old.reader }
        ensures rest { KeepsRest self.old self.new }
    {
        self.reader.push(&[])?;
        Ok(())
    }

    /// Notes that nothing more follows.
    pub fn end(&mut self)
        ensures state { self.new.reader ≡ events_ended self.old.reader }
        ensures read { GivesOn self.old.reader [] self.new.reader }
        ensures rest { KeepsRest self.old self.new }
    {
        self.reader.end();
    }

    /// Reads the next event.
    pub fn next_event(&mut self, event: &mut JsonEvent) -> Status
        ensures { GivesEvent self.old result event.new self.new }
    {
        let answer = self.reader.next_event();
        self.tell(answer, event)
    }

    /// Returns the length of the joined input so far, in bytes.
    pub fn fed(&self) -> usize
        ensures { result ≡ fed_of self.now.reader.tokens }
    {
        self.reader.fed()
    }

    /// Returns how many bytes are kept: those that wait to be read, and those that were read since
    /// the last piece.
    pub fn held(&self) -> usize
        ensures { result ≡ bytes_kept self.now.reader.tokens }
    {
        self.reader.held()
    }

    /// Returns how many bytes of the joined input were read.
    pub fn place(&self) -> usize
        ensures { result ≡ self.now.reader.tokens.place }
    {
        self.reader.place()
    }

    /// Returns how many arrays and objects are open.
    pub fn level(&self) -> usize
        ensures { result ≡ length self.now.reader.text.open_brackets }
    {
        self.reader.level()
    }

    // Writes an answer of the reader into an event, and keeps the text that it lends.
    fn tell(&mut self, answer: Result<Next<Event>, EventError>, event: &mut JsonEvent) -> Status
        ensures reader { self.new.reader ≡ self.old.reader }
        ensures kept { self.new.kept ≡ self.old.kept }
        ensures tells { TellsAnswer answer result event.new self.new.lent }
    {
        let alloc = *self.lent.allocator();
        match answer {
            Ok(Next::Value(given)) => {
                self.show(parts_of(alloc, given), event);
                Status::Ok
            }
            Ok(Next::NeedsMore) => {
                self.show(plain(alloc, JsonKind::None), event);
                Status::NeedsMore
            }
            Ok(Next::Done) => {
                self.show(plain(alloc, JsonKind::None), event);
                Status::Done
            }
            Err(error) => {
                self.show(plain(alloc, JsonKind::None), event);
                place_error(error, event)
            }
        }
    }

    // Lends what is kept of an event.
    fn show(&mut self, parts: Parts, event: &mut JsonEvent)
        ensures reader { self.new.reader ≡ self.old.reader }
        ensures kept { self.new.kept ≡ self.old.kept }
        ensures shows { Shows parts event.new self.new.lent }
    {
        self.lent = parts.text;
        *event = JsonEvent {
            kind: parts.kind.code(),
            cause: 0,
            text: self.lent.as_ptr(),
            length: self.lent.len(),
            integer: parts.integer.unwrap_or(0),
            place: 0,
            has_integer: parts.integer.is_some(),
        };
    }
}

// Writes the place and the cause of an error into an event, and returns its status.
fn place_error(error: EventError, event: &mut JsonEvent) -> Status
    ensures status { result ≡ error_status error }
    ensures event { event.new ≡ record event.old {
      place = error_place error;
      cause = error_cause error;
    } }
{
    event.place = 0;
    event.cause = 0;
    match error {
        EventError::Damaged { place, cause } => {
            event.place = place;
            event.cause = cause_number(cause);
            Status::Damaged
        }
        EventError::Unexpected { place } => {
            event.place = place;
            Status::Unexpected
        }
        EventError::TooDeep { place } => {
            event.place = place;
            Status::TooDeep
        }
        EventError::EndsEarly { place } => {
            event.place = place;
            Status::EndsEarly
        }
        EventError::Refused(_) => Status::Refused,
    }
}
