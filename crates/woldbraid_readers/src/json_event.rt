//! `JsonEvent`: an event of a JSON text, or why there is none, as a plain struct.

ghost use Rattle.std.specs.Prelude.{◌≡◌, [], None};
ghost use Rattle.woldbraid_readers.specs.Codes.{kind_code, cause_code};
ghost use Rattle.woldbraid_readers.specs.Events.{kind_of, text_of, integer_of};

use format_json::{Cause, Number};
use format_json_events::Event;
use std::alloc::Global;

/// What kind of event it is.
#[derive(Clone, Copy, Debug, Drop, PartialEq, Eq)]
pub enum JsonKind {
    /// There is no event
    None,
    /// An array begins
    StartArray,
    /// The array ends that began last
    EndArray,
    /// An object begins
    StartObject,
    /// The object ends that began last
    EndObject,
    /// The name of a member
    Key,
    /// `null`
    Null,
    /// `false`
    False,
    /// `true`
    True,
    /// A number
    Number,
    /// A string
    String,
}

impl JsonKind {
    /// Returns the number that C knows it by.
    pub fn code(self) -> u32
        ensures { result ≡ kind_code self }
    {
        match self {
            JsonKind::None => 0,
            JsonKind::StartArray => 1,
            JsonKind::EndArray => 2,
            JsonKind::StartObject => 3,
            JsonKind::EndObject => 4,
            JsonKind::Key => 5,
            JsonKind::Null => 6,
            JsonKind::False => 7,
            JsonKind::True => 8,
            JsonKind::Number => 9,
            JsonKind::String => 10,
        }
    }
}

/// An event, or why there is none.
#[repr(C)]
#[derive(Drop)]
pub struct JsonEvent {
    /// The kind of event, by the code of a [`JsonKind`]
    pub kind: u32,
    /// What is wrong if the input is damaged, by its number, else 0
    pub cause: u32,
    /// Where the bytes of a name, a string or a number lie, until the next call
    pub text: *const u8,
    /// How many these are, in bytes; 0 for other events
    pub length: usize,
    /// The number, if it is an integer that an `i64` has, else 0
    pub integer: i64,
    /// The place of an error in the joined input, as an offset in bytes, else 0
    pub place: usize,
    /// Whether the number is such an integer
    pub has_integer: bool,
}

// What is kept of an event.
#[derive(Drop)]
pub(crate) struct Parts {
    // The kind
    pub(crate) kind: JsonKind,
    // The bytes of a name, a string or a number
    pub(crate) text: Vec<u8>,
    // The integer that a number is
    pub(crate) integer: Option<i64>,
}

// Takes an event apart, which takes no memory.
pub(crate) fn parts_of(alloc: Global, event: Event) -> Parts
    ensures kind { result.kind ≡ kind_of event }
    ensures text { result.text.items ≡ text_of event }
    ensures integer { result.integer ≡ integer_of event }
{
    match event {
        Event::StartArray => plain(alloc, JsonKind::StartArray),
        Event::EndArray => plain(alloc, JsonKind::EndArray),
        Event::StartObject => plain(alloc, JsonKind::StartObject),
        Event::EndObject => plain(alloc, JsonKind::EndObject),
        Event::Null => plain(alloc, JsonKind::Null),
        Event::Bool(false) => plain(alloc, JsonKind::False),
        Event::Bool(true) => plain(alloc, JsonKind::True),
        Event::Key(name) => written(JsonKind::Key, name.into_bytes()),
        Event::String(value) => written(JsonKind::String, value.into_bytes()),
        Event::Number(Number { text, integer }) => Parts {
            kind: JsonKind::Number,
            text,
            integer,
        },
    }
}

// Returns what is kept of an event without a text.
pub(crate) fn plain(alloc: Global, kind: JsonKind) -> Parts
    ensures kind { result.kind ≡ kind }
    ensures text { result.text.items ≡ [] }
    ensures integer { result.integer ≡ None }
{
    written(kind, Vec::new(alloc))
}

// Returns what is kept of an event with this text.
fn written(kind: JsonKind, text: Vec<u8>) -> Parts
    ensures kind { result.kind ≡ kind }
    ensures text { result.text ≡ text }
    ensures integer { result.integer ≡ None }
{
    Parts {
        kind,
        text,
        integer: None,
    }
}

// Returns the number that C knows a cause by, from 1 on.
pub(crate) fn cause_number(cause: Cause) -> u32
    ensures { result ≡ cause_code cause }
{
    match cause {
        Cause::WideText => 1,
        Cause::ByteOrderMark => 2,
        Cause::Comment => 3,
        Cause::SingleQuote => 4,
        Cause::OtherWord => 5,
        Cause::NoToken => 6,
        Cause::LeadingZero => 7,
        Cause::BadNumber => 8,
        Cause::BadEscape => 9,
        Cause::LoneSurrogate => 10,
        Cause::ControlCharacter => 11,
        Cause::BadUtf8 => 12,
    }
}
