//! `EventReader`: events of replies from bytes that come in pieces.

ghost use Rattle.std.specs.Prelude.{◌≡◌, ◌<◌, vec_len, vec_capacity};
ghost use Rattle.format_resp.specs.declared.reply.Reply.TheViews.{out-Reply};
ghost use Rattle.format_resp_events.specs.Events.{first_event};
ghost use Rattle.format_resp_events.specs.OpenArrays.{lacks_of, after_head};
ghost use Rattle.format_resp_events.specs.Reading.{end_answer};

use crate::ReplyEvent;
use crate::event::first_event;
use crate::heads::{Head, next_head};
use crate::open_arrays::OpenArrays;
use format_resp::{Cause, Reply, ReplyTo};
use std::alloc::{AllocError, Global};
use std::marker::Model;
use winnow_reader::Next;
use winnow_scan::ScanReader;

/// Why a reader has no event.
#[derive(Clone, Copy, Debug, Drop, PartialEq, Eq)]
pub enum EventError {
    /// No reply within the limits stands where one is due, whatever follows
    Damaged {
        /// The place that is wrong, in the joined input
        place: usize,
        /// What is wrong there
        cause: Cause,
    },
    /// Memory was refused. Nothing has changed, and the call may be made again
    Refused(AllocError),
}

/// A reader of the events of replies that come in pieces.
///
/// The input is replies within limits, one after the other, as a `ScanReader` of
/// [`ReplyTo`](format_resp::ReplyTo) reads them. The reader keeps the longest text or bulk string,
/// one piece, and a number for each array that is open.
///
/// ```
/// let mut reader = EventReader::new(alloc, limits);
/// ..
/// push(&mut reader, &text[..cut])?;
/// ..
/// reader.end();
/// ```
#[derive(Drop)]
pub struct EventReader {
    // The reader of replies that stand in no array
    replies: ScanReader<ReplyTo>,
    open: OpenArrays,
    depth: usize,
}

impl Model for EventReader {
    ghost use Rattle.std.specs.Prelude.{◌≡◌};
    ghost use Rattle.format_resp_events.specs.OpenArrays.{lacks_of};
    ghost use Rattle.format_resp_events.specs.Reading.{EventState};

    ghost Value = { EventState };

    ghost view = { λ r. record {
      replies = r.replies;
      open_arrays = lacks_of r.open;
      depth = r.depth;
    } };

    ghost invariant = { λ r. r.replies.parser.depth ≡ 0 };
}

// Takes a whole reply, whose array, if it is one, has no replies. Room is made before.
fn take(open: &mut OpenArrays, reply: Reply) -> ReplyEvent
    requires { vec_len open.old.lacks < vec_capacity open.old.lacks }
    ensures lacks { lacks_of open.new ≡ after_head (out-Reply reply) (lacks_of open.old) }
    ensures event { result ≡ first_event (out-Reply reply) }
{
    if matches!(reply, Reply::Array(_)) {
        open.begin(0);
    } else {
        open.end_reply();
    }
    first_event(reply)
}

// Returns what the reader answers at the end of an input of this length.
fn end_answer(open: &OpenArrays, fed: usize) -> Result<Next<ReplyEvent>, EventError>
    ensures { result ≡ end_answer (lacks_of open.now) fed }
{
    if open.len() == 0 {
        return Ok(Next::Done);
    }
    Err(EventError::Damaged {
        place: fed,
        cause: Cause::EndsInside,
    })
}

impl EventReader {
    ghost use Rattle.std.specs.Prelude.{◌≡◌, ◌+◌, ◌<◌, ◌^◌, [], false, length, OnOk, OnErr};
    ghost use Rattle.winnow_reader.specs.State.{fed_of};
    ghost use Rattle.format_resp_events.specs.Reading.{new_reader, events_pushed};
    ghost use Rattle.format_resp_events.specs.Reading.{events_unspent, events_ended};
    ghost use Rattle.format_resp_events.specs.Reading.{HasGiven, GivesAlso, GivesOn, KeepsLimits};
    ghost use Rattle.format_resp_events.specs.Reading.{next_events, IsNext};

    /// Returns a reader that nothing was pushed to.
    pub fn new(alloc: Global, limits: ReplyTo) -> EventReader
        ensures state { result ≡ new_reader limits }
        ensures read { HasGiven result [] [] }
    {
        let outside = ReplyTo {
            depth: 0,
            longest: limits.longest,
        };
        EventReader {
            replies: ScanReader::new(alloc, outside),
            open: OpenArrays::new(alloc),
            depth: limits.depth,
        }
    }

    /// Appends a piece to what is ahead, and drops what events took. When memory is refused,
    /// nothing else has changed, and the same piece may be pushed again.
    pub fn push(&mut self, piece: &[u8]) -> Result<(), AllocError>
        requires goes_on { self.old.replies.ended ≡ false }
        requires fits { fed_of self.old.replies + length piece.now < 2 ^ 64 }
        ensures ok { OnOk result (self.new ≡ events_pushed self.old piece.now) }
        ensures read { OnOk result (GivesAlso self.old piece.now self.new) }
        ensures refused { OnErr result (self.new ≡ events_unspent self.old) }
    {
        self.replies.push(piece)?;
        Ok(())
    }

    /// Notes that nothing more follows.
    pub fn end(&mut self)
        ensures state { self.new ≡ events_ended self.old }
        ensures read { GivesOn self.old [] self.new }
    {
        self.replies.end();
    }

    /// Reads the next event.
    ///
    /// After an error the reader stays as it is, and each call gives that error again. Where more
    /// is needed or memory was refused, the call may be made again.
    pub fn next_event(&mut self) -> Result<Next<ReplyEvent>, EventError>
        ensures read { GivesOn self.old (next_events result) self.new }
        ensures keeps { KeepsLimits self.old self.new }
        ensures answer { IsNext self.old result self.new }
    {
        if !self.open.is_due() {
            self.open.end_array();
            return Ok(Next::Value(ReplyEvent::EndArray));
        }
        // Room is made before a reply is taken, so that a refusal changes nothing.
        if let Err(refused) = self.open.make_room() {
            return Err(EventError::Refused(refused));
        }
        match next_head(&mut self.replies, self.open.len() >= self.depth) {
            Ok(Head::Whole(reply)) => Ok(Next::Value(take(&mut self.open, reply))),
            Ok(Head::Array(count)) => {
                self.open.begin(count);
                Ok(Next::Value(ReplyEvent::StartArray(count)))
            }
            Ok(Head::NeedsMore) => Ok(Next::NeedsMore),
            Ok(Head::End) => end_answer(&self.open, self.replies.fed()),
            Err(error) => Err(error),
        }
    }
}

impl EventReader {
    ghost use Rattle.std.specs.Prelude.{◌≡◌, length};
    ghost use Rattle.winnow_reader.specs.State.{fed_of, bytes_kept};

    /// Returns the length of the joined input so far.
    pub fn fed(&self) -> usize
        ensures { result ≡ fed_of self.now.replies }
    {
        self.replies.fed()
    }

    /// Returns where the next event begins in the joined input: how many bytes events took.
    pub fn place(&self) -> usize
        ensures { result ≡ self.now.replies.place }
    {
        self.replies.place()
    }

    /// Returns how many bytes are kept: those ahead, and those that events took since the last
    /// piece.
    pub fn held(&self) -> usize
        ensures { result ≡ bytes_kept self.now.replies }
    {
        self.replies.held()
    }

    /// Returns how many arrays are open.
    pub fn level(&self) -> usize
        ensures { result ≡ length self.now.open_arrays }
    {
        self.open.len()
    }

    /// Returns whether the input has ended.
    pub fn has_ended(&self) -> bool
        ensures { result ≡ self.now.replies.ended }
    {
        self.replies.has_ended()
    }
}
