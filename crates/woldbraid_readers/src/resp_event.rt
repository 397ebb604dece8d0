//! `RespEvent`: an event of replies of the Redis protocol, or why there is none, as a plain struct.

ghost use Rattle.std.specs.Prelude.{◌≡◌, [], pos};
ghost use Rattle.woldbraid_readers.specs.Codes.{reply_code, reply_cause_code};
ghost use Rattle.woldbraid_readers.specs.RespEvents.{kind_of, text_of, integer_of, count_of};

use format_resp::Cause;
use format_resp_events::ReplyEvent;
use std::alloc::Global;

/// What kind of event it is.
#[derive(Clone, Copy, Debug, Drop, PartialEq, Eq)]
pub enum RespKind {
    /// There is no event
    None,
    /// An array begins
    StartArray,
    /// The array ends that began last
    EndArray,
    /// A short text without a line end
    Simple,
    /// The text of an error
    Error,
    /// An integer
    Integer,
    /// Any bytes
    Bulk,
    /// The bulk string that is not there
    NullBulk,
    /// The array that is not there
    NullArray,
}

impl RespKind {
    /// Returns the number that C knows it by.
    pub fn code(self) -> u32
        ensures { result ≡ reply_code self }
    {
        match self {
            RespKind::None => 0,
            RespKind::StartArray => 1,
            RespKind::EndArray => 2,
            RespKind::Simple => 3,
            RespKind::Error => 4,
            RespKind::Integer => 5,
            RespKind::Bulk => 6,
            RespKind::NullBulk => 7,
            RespKind::NullArray => 8,
        }
    }
}

/// An event, or why there is none.
#[repr(C)]
#[derive(Drop)]
pub struct RespEvent {
    /// The kind of event, by the code of a [`RespKind`]
    pub kind: u32,
    /// What is wrong if there is an error with a place, by its number, else 0
    pub cause: u32,
    /// Where the bytes of a text or a bulk string lie, until the next call
    pub text: *const u8,
    /// How many these are, in bytes; 0 for other events
    pub length: usize,
    /// The integer, else 0
    pub integer: i64,
    /// How many replies the array has that begins, else 0
    pub count: usize,
    /// The place of an error in the joined input, as an offset in bytes, else 0
    pub place: usize,
}

// What is kept of an event.
#[derive(Drop)]
pub(crate) struct ReplyParts {
    // The kind
    pub(crate) kind: RespKind,
    // The bytes of a text or a bulk string
    pub(crate) text: Vec<u8>,
    // The integer
    pub(crate) integer: i64,
    // How many replies an array has
    pub(crate) count: usize,
}

// Takes an event apart, which takes no memory.
pub(crate) fn reply_parts(alloc: Global, event: ReplyEvent) -> ReplyParts
    ensures kind { result.kind ≡ kind_of event }
    ensures text { result.text.items ≡ text_of event }
    ensures integer { result.integer ≡ integer_of event }
    ensures count { result.count ≡ count_of event }
{
    match event {
        ReplyEvent::StartArray(count) => {
            let mut parts = bare(alloc, RespKind::StartArray);
            parts.count = count;
            parts
        }
        ReplyEvent::EndArray => bare(alloc, RespKind::EndArray),
        ReplyEvent::Simple(text) => with_text(RespKind::Simple, text),
        ReplyEvent::Error(text) => with_text(RespKind::Error, text),
        ReplyEvent::Integer(integer) => {
            let mut parts = bare(alloc, RespKind::Integer);
            parts.integer = integer;
            parts
        }
        ReplyEvent::Bulk(bytes) => with_text(RespKind::Bulk, bytes),
        ReplyEvent::NullBulk => bare(alloc, RespKind::NullBulk),
        ReplyEvent::NullArray => bare(alloc, RespKind::NullArray),
    }
}

// Returns what is kept of an event that is its kind alone.
pub(crate) fn bare(alloc: Global, kind: RespKind) -> ReplyParts
    ensures kind { result.kind ≡ kind }
    ensures text { result.text.items ≡ [] }
    ensures integer { result.integer ≡ pos 0 }
    ensures count { result.count ≡ 0 }
{
    with_text(kind, Vec::new(alloc))
}

// Returns what is kept of an event with this text.
fn with_text(kind: RespKind, text: Vec<u8>) -> ReplyParts
    ensures kind { result.kind ≡ kind }
    ensures text { result.text ≡ text }
    ensures integer { result.integer ≡ pos 0 }
    ensures count { result.count ≡ 0 }
{
    ReplyParts {
        kind,
        text,
        integer: 0,
        count: 0,
    }
}

// Returns the number that C knows a cause by, from 1 on.
pub(crate) fn reply_cause_number(cause: Cause) -> u32
    ensures { result ≡ reply_cause_code cause }
{
    match cause {
        Cause::EndsInside => 1,
        Cause::NoKind => 2,
        Cause::TooDeep => 3,
        Cause::NoInteger => 4,
        Cause::NoLength => 5,
        Cause::TooLong => 6,
        Cause::NoLineEnd => 7,
    }
}
