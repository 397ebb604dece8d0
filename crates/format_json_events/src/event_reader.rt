//! `EventReader`: events from bytes that come in pieces.

ghost use Rattle.std.specs.Prelude.{◌≡◌};
ghost use Rattle.format_json.specs.Reading.{FindsDamage};
ghost use Rattle.format_json_events.specs.Turns.{state_of};
ghost use Rattle.format_json_events.specs.Reading.{IsComing, IsNoNext, error_at};

use crate::blanks::{ahead_count, drop_blanks, token_start};
use crate::syntax::{Syntax, Taken};
use crate::turns::Misplaced;
use format_json::{Cause, JsonToken, Number, Token, blank_count, cause_of, is_cut};
use format_json_scalars::byte_or;
use std::alloc::{AllocError, Global};
use std::marker::Model;
use winnow_reader::{Next, ReadError};
use winnow_scan::ScanReader;

/// What a text has next.
#[derive(Debug, Drop)]
pub enum Event {
    /// An array begins
    StartArray,
    /// The array ends that began last
    EndArray,
    /// An object begins
    StartObject,
    /// The object ends that began last
    EndObject,
    /// The name of a member, whose value comes next
    Key(String),
    /// `null`
    Null,
    /// `true` or `false`
    Bool(bool),
    /// A number, with its text
    Number(Number),
    /// A string
    String(String),
}

/// Why a reader has no event. Places are those in the joined input. They are the places that
/// [`read_document`](format_json::read_document) names, but for `EndsEarly`: see
/// [`stops_law`](crate::stops_law).
#[derive(Clone, Copy, Debug, Drop, PartialEq, Eq)]
pub enum EventError {
    /// No token stands there, whatever follows, and one might come next that begins so
    Damaged {
        /// The place that is wrong, as of [`JsonToken`](format_json::JsonToken)
        place: usize,
        /// What is wrong there
        cause: Cause,
    },
    /// A token stands there that may not come next; or its first byte does, and the rest is damaged
    /// or cut off by the end of the input
    Unexpected {
        /// Where the token begins
        place: usize,
    },
    /// A value stands there within too many arrays and objects, or the name before one, or the
    /// first byte of either
    TooDeep {
        /// Where the value or the name begins
        place: usize,
    },
    /// The input ends before the text does: between two tokens, or in one that may come next
    EndsEarly {
        /// The length of the input, also where [`read_document`](format_json::read_document) names
        /// the offset at which what is cut off begins
        place: usize,
    },
    /// Memory was refused. Nothing has changed, and the call may be made again
    Refused(AllocError),
}

/// Why a reader with a limit on tokens has no event.
#[derive(Clone, Copy, Debug, Drop, PartialEq, Eq)]
pub enum WithinError {
    /// A token has more bytes than the limit allows, or has not ended within them
    TooLong {
        /// Where it begins in the joined input
        place: usize,
    },
    /// The reader has none without the limit either
    Failed(EventError),
}

// What comes next of a text.
#[derive(Debug, Drop)]
enum Coming {
    // A token
    Token(Token),
    // The end
    End,
    // Bytes that are not there yet
    NeedsMore,
}

// What came of the next token.
#[derive(Debug, Drop)]
enum Step {
    // It was taken
    Took(Taken),
    // The text ended there
    Done,
    // It is not there yet
    NeedsMore,
}

/// A reader of the events of a text that comes in pieces.
///
/// The text is one value, with blanks around it and nothing else, and each value in it stands
/// within at most `depth` arrays and objects: the texts that
/// [`read_document`](format_json::read_document) reads. The reader keeps the longest token, one
/// piece, and a byte for each array and object that is open. Where it needs more it drops the
/// blanks ahead, so a run of blanks of any length is kept at most up to the end of its piece.
///
/// A token that may not come next is refused once all its bytes are there, or are damaged, or the
/// input has ended: until then the reader needs more.
///
/// ```
/// let mut reader = EventReader::new(alloc, DEPTH);
/// ..
/// push(&mut reader, &text[..cut])?;
/// ..
/// reader.end();
/// ```
#[derive(Drop)]
pub struct EventReader {
    tokens: ScanReader<JsonToken>,
    syntax: Syntax,
    // The error after which no token is read
    stopped: Option<EventError>,
}

impl Model for EventReader {
    ghost use Rattle.format_json_events.specs.Turns.{state_of};
    ghost use Rattle.format_json_events.specs.Reading.{EventState};

    ghost Value = { EventState };

    ghost view = { λ r. record {
      tokens = r.tokens;
      text = state_of r.syntax;
      stopped = r.stopped;
    } };
}

impl EventReader {
    ghost use Rattle.std.specs.Prelude.{◌≡◌, ◌+◌, ◌<◌, ◌≤◌, ◌^◌, Some, None, [], false, length};
    ghost use Rattle.std.specs.Prelude.{OnOk, OnErr, IfOk, Ok, Err};
    ghost use Rattle.winnow_reader.specs.State.{fed_of};
    ghost use Rattle.format_json_events.specs.Reading.{new_reader, events_pushed};
    ghost use Rattle.format_json_events.specs.Reading.{events_unspent};
    ghost use Rattle.format_json_events.specs.Reading.{events_ended, HasGiven, GivesAlso};
    ghost use Rattle.format_json_events.specs.Reading.{GivesOn};
    ghost use Rattle.format_json_events.specs.Reading.{KeepsLimits};
    ghost use Rattle.format_json_events.specs.Reading.{step_events, next_events, IsStep};
    ghost use Rattle.format_json_events.specs.Reading.{IsNext};
    ghost use Rattle.format_json_events.specs.Lengths.{KeepsShort, TakesStep};
    ghost use Rattle.format_json_events.specs.Lengths.{IsStepWithin, IsNextWithin};
    ghost use Rattle.winnow_reader.specs.declared.next.Next.TheVariants as next;
    ghost use Rattle.format_json_events.specs.declared.event_reader.EventError.{EventError};
    ghost use Rattle.format_json_events.specs.declared.event_reader.WithinError.TheVariants.{Failed};
    ghost use Rattle.format_json_events.specs.declared.event_reader.Step.TheVariants as step;

    /// Returns a reader that nothing was pushed to.
    pub fn new(alloc: Global, depth: usize) -> EventReader
        ensures state { result ≡ new_reader depth }
        ensures read { HasGiven result [] [] }
    {
        EventReader {
            tokens: ScanReader::new(alloc, JsonToken),
            syntax: Syntax::new(alloc, depth),
            stopped: None,
        }
    }

    /// Appends a piece to what is ahead, and frees what tokens took and dropped blanks. When memory
    /// is refused, nothing else has changed, and the same piece may be pushed again.
    pub fn push(&mut self, piece: &[u8]) -> Result<(), AllocError>
        requires goes_on { self.old.tokens.ended ≡ false }
        requires fits { fed_of self.old.tokens + length piece.now < 2 ^ 64 }
        ensures ok { OnOk result (self.new ≡ events_pushed self.old piece.now) }
        ensures read { OnOk result (GivesAlso self.old piece.now self.new) }
        ensures refused { OnErr result (self.new ≡ events_unspent self.old) }
    {
        self.tokens.push(piece)?;
        Ok(())
    }

    /// Notes that nothing more follows.
    pub fn end(&mut self)
        ensures state { self.new ≡ events_ended self.old }
        ensures read { GivesOn self.old [] self.new }
    {
        self.tokens.end();
    }

    /// Reads the next event.
    ///
    /// After an error that names a place the reader stays as it is, and each call gives that error
    /// again. Where more is needed or memory was refused, the call may be made again. Where more is
    /// needed, the blanks ahead are dropped.
    pub fn next_event(&mut self) -> Result<Next<Event>, EventError>
        ensures read { GivesOn self.old (next_events result) self.new }
        ensures keeps { KeepsLimits self.old self.new }
        ensures stopped { (e : EventError) → self.old.stopped ≡ Some e
            → (result ≡ Err e) × (self.new ≡ self.old) }
        ensures answer { self.old.stopped ≡ None → IsNext self.old result self.new }
    {
        loop {
            match self.step() {
                Ok(Step::Took(Taken::Has(event))) => return Ok(Next::Value(event)),
                Ok(Step::Took(Taken::Passes)) => {}
                Ok(Step::Done) => return Ok(Next::Done),
                Ok(Step::NeedsMore) => return Ok(Next::NeedsMore),
                Err(error) => return Err(error),
            }
        }
    }

    /// Reads the next event, as [`next_event`](EventReader::next_event) does, if no token up to it
    /// has more bytes than the limit.
    ///
    /// A token that is too long fails once more bytes of it than the limit are ahead, so where more
    /// is needed, no more than these are kept. After it the reader may have taken that token, and
    /// is not to be called again.
    pub fn next_within(&mut self, limit: usize) -> Result<Next<Event>, WithinError>
        ensures read { IfOk result (λ n. GivesOn self.old (next_events (Ok n)) self.new) }
        ensures keeps { KeepsLimits self.old self.new }
        ensures short { OnOk result (KeepsShort limit self.old self.new) }
        ensures stopped { (e : EventError) → self.old.stopped ≡ Some e
            → (result ≡ Err (Failed e)) × (self.new ≡ self.old) }
        ensures answer { self.old.stopped ≡ None
            → IsNextWithin limit self.old result self.new }
        ensures kept { IfOk result (λ n. n ≡ next.NeedsMore
            → length self.new.tokens.ahead ≤ limit) }
    {
        loop {
            match self.step_within(limit) {
                Ok(Step::Took(Taken::Has(event))) => return Ok(Next::Value(event)),
                Ok(Step::Took(Taken::Passes)) => {}
                Ok(Step::Done) => return Ok(Next::Done),
                Ok(Step::NeedsMore) => return Ok(Next::NeedsMore),
                Err(error) => return Err(error),
            }
        }
    }

    // Takes the next token, if its bytes are there and no more than the limit.
    fn step_within(&mut self, limit: usize) -> Result<Step, WithinError>
        ensures read { IfOk result (λ s. GivesOn self.old (step_events (Ok s)) self.new) }
        ensures keeps { KeepsLimits self.old self.new }
        ensures short { OnOk result (KeepsShort limit self.old self.new) }
        ensures stopped { (e : EventError) → self.old.stopped ≡ Some e
            → (result ≡ Err (Failed e)) × (self.new ≡ self.old) }
        ensures answer { self.old.stopped ≡ None
            → IsStepWithin limit self.old result self.new }
        ensures kept { IfOk result (λ s. s ≡ step.NeedsMore
            → length self.new.tokens.ahead ≤ limit) }
    {
        let place = token_start(&self.tokens);
        let whole = ahead_count(&self.tokens);
        match self.step() {
            Ok(Step::Took(taken)) => {
                if limit < whole.saturating_sub(self.tokens.ahead().len()) {
                    return Err(WithinError::TooLong { place });
                }
                Ok(Step::Took(taken))
            }
            Ok(Step::Done) => Ok(Step::Done),
            Ok(Step::NeedsMore) => {
                if limit < whole {
                    return Err(WithinError::TooLong { place });
                }
                Ok(Step::NeedsMore)
            }
            Err(error) => Err(WithinError::Failed(error)),
        }
    }

    // Takes the next token, if its bytes are there.
    fn step(&mut self) -> Result<Step, EventError>
        ensures read { GivesOn self.old (step_events result) self.new }
        ensures keeps { KeepsLimits self.old self.new }
        ensures takes { TakesStep self.old.tokens result self.new.tokens }
        ensures stopped { (e : EventError) → self.old.stopped ≡ Some e
            → (result ≡ Err e) × (self.new ≡ self.old) }
        ensures answer { self.old.stopped ≡ None → IsStep self.old result self.new }
    {
        if let Some(stopped) = self.stopped {
            return Err(stopped);
        }
        // Room is made before the token is taken, so that a refusal changes nothing.
        if let Err(refused) = self.syntax.make_room() {
            return Err(EventError::Refused(refused));
        }
        let start = token_start(&self.tokens);
        match next_token(&mut self.tokens, &self.syntax) {
            Ok(Coming::Token(token)) => match self.syntax.take(token) {
                Ok(taken) => Ok(Step::Took(taken)),
                Err(misplaced) => {
                    let error = error_at(misplaced, start);
                    self.stopped = Some(error);
                    Err(error)
                }
            },
            Ok(Coming::End) => match self.syntax.take_end() {
                Ok(()) => Ok(Step::Done),
                Err(misplaced) => {
                    let error = error_at(misplaced, start);
                    self.stopped = Some(error);
                    Err(error)
                }
            },
            Ok(Coming::NeedsMore) => Ok(Step::NeedsMore),
            Err(error) => Err(error),
        }
    }
}

impl EventReader {
    ghost use Rattle.std.specs.Prelude.{◌≡◌, length};
    ghost use Rattle.winnow_reader.specs.State.{fed_of, bytes_kept};

    /// Returns the length of the joined input so far.
    pub fn fed(&self) -> usize
        ensures { result ≡ fed_of self.now.tokens }
    {
        self.tokens.fed()
    }

    /// Returns how many bytes are kept: those ahead, and those that tokens took, or that were
    /// dropped, since the last piece.
    pub fn held(&self) -> usize
        ensures { result ≡ bytes_kept self.now.tokens }
    {
        self.tokens.held()
    }

    /// Returns how many bytes of the joined input tokens took, and the blanks that were dropped
    /// after them: the next token, or blanks before it, begins there.
    pub fn place(&self) -> usize
        ensures { result ≡ self.now.tokens.place }
    {
        self.tokens.place()
    }

    /// Returns how many arrays and objects are open.
    pub fn level(&self) -> usize
        ensures { result ≡ length self.now.text.open_brackets }
    {
        self.syntax.open.len()
    }

    /// Returns whether the input has ended.
    pub fn has_ended(&self) -> bool
        ensures { result ≡ self.now.tokens.ended }
    {
        self.tokens.has_ended()
    }
}

// Reads the next token, if its bytes are there.
fn next_token(tokens: &mut ScanReader<JsonToken>, syntax: &Syntax) -> Result<Coming, EventError>
    ensures { IsComing (state_of syntax.now) tokens.old result tokens.new }
{
    match tokens.read_next() {
        Ok(Next::Value(Token::End)) => Ok(Coming::End),
        Ok(Next::Value(token)) => Ok(Coming::Token(token)),
        Ok(Next::NeedsMore) => {
            drop_blanks(tokens);
            Ok(Coming::NeedsMore)
        }
        Ok(Next::Done) => Ok(Coming::End),
        Err(
            ReadError::Failed {
                error: _,
                place,
                is_cut: _,
            },
        ) => { Err(damage_at(tokens, syntax, place)) }
        Err(ReadError::TakesNothing { place: _ }) => unreachable!(),
        Err(ReadError::Refused(refused)) => Err(EventError::Refused(refused)),
    }
}

// Returns the error of a token that is damaged at the place: it may not come next; or it is cut off
// by the end of the input; or no bytes make it whole.
fn damage_at(tokens: &ScanReader<JsonToken>, syntax: &Syntax, place: usize) -> EventError
    requires { FindsDamage tokens.now place }
    ensures { IsNoNext (state_of syntax.now) tokens.now result }
{
    let ahead = tokens.ahead();
    let here = &ahead[blank_count(ahead)..];
    if let Some(misplaced) = syntax.bar_from(byte_or(here, 0, 0)) {
        return error_at(misplaced, token_start(tokens));
    }
    let rest = &ahead[place - tokens.place()..];
    if tokens.has_ended() && is_cut(here, rest) {
        return EventError::EndsEarly {
            place: tokens.fed(),
        };
    }
    EventError::Damaged {
        place,
        cause: cause_of(here, rest),
    }
}

// Returns the error of a token that may not stand at the place.
fn error_at(misplaced: Misplaced, place: usize) -> EventError
    ensures { result ≡ error_at misplaced place }
{
    match misplaced {
        Misplaced::Unexpected => EventError::Unexpected { place },
        Misplaced::TooDeep => EventError::TooDeep { place },
        Misplaced::EndsEarly => EventError::EndsEarly { place },
    }
}
