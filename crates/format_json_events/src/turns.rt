//! The tokens allowed next.

ghost use Rattle.std.specs.Prelude.{◌≡◌};
ghost use Rattle.format_json_events.specs.Turns.{within, value_turn, key_turn, next_turn, turn_of};
ghost use Rattle.format_json_events.specs.Turns.{takes_scalar, scalar_bar, begins_plain};

use crate::Event;
use format_json::Token;

/// What a bracket begins.
#[derive(Clone, Copy, Debug, Drop, PartialEq, Eq)]
pub(crate) enum Bracket {
    /// An array
    Array,
    /// An object
    Object,
}

/// What may come next in a text.
#[derive(Clone, Copy, Debug, Drop, PartialEq, Eq)]
pub(crate) enum Expected {
    /// A value: at the start, after a colon, and after a comma in an array
    Value,
    /// A value or the closing bracket, after the opening bracket of an array
    FirstValue,
    /// A name or the closing bracket, after the opening bracket of an object
    FirstKey,
    /// A name, after a comma in an object
    Key,
    /// A colon, after a name
    Colon,
    /// A comma or the closing bracket, after a value in an array or an object
    Next,
    /// The end, after the value that the text is
    End,
}

/// Why a token may not stand where it does.
#[derive(Clone, Copy, Debug, Drop, PartialEq, Eq)]
pub(crate) enum Misplaced {
    /// Another one is expected
    Unexpected,
    /// It begins a value within too many arrays and objects, or is the name before one
    TooDeep,
    /// It is the end of the text, and more is expected
    EndsEarly,
}

/// What a token does where it stands.
#[derive(Debug, Drop)]
pub(crate) enum Turn {
    /// It begins an array or an object
    Opens(Bracket),
    /// It ends one
    Closes(Bracket),
    /// It is a value, whose event this is
    Gives(Event),
    /// It is the name of a member
    Names(String),
    /// It is a comma or a colon, and this is expected next
    Passes(Expected),
    /// It is the end of a text that is whole
    Ends,
    /// It may not stand there
    Refuses(Misplaced),
}

// Returns what a token does that begins a value or is a name: `deep` says that the value would
// stand too deep.
fn within(deep: bool, turn: Turn) -> Turn
    ensures { result ≡ within deep turn }
{
    if deep {
        return Turn::Refuses(Misplaced::TooDeep);
    }
    turn
}

// Returns what a token does where a value is expected.
fn value_turn(deep: bool, token: Token) -> Turn
    ensures { result ≡ value_turn deep token }
{
    match token {
        Token::StartArray => within(deep, Turn::Opens(Bracket::Array)),
        Token::StartObject => within(deep, Turn::Opens(Bracket::Object)),
        Token::Null => within(deep, Turn::Gives(Event::Null)),
        Token::Bool(value) => within(deep, Turn::Gives(Event::Bool(value))),
        Token::Number(value) => within(deep, Turn::Gives(Event::Number(value))),
        Token::String(value) => within(deep, Turn::Gives(Event::String(value))),
        Token::End => Turn::Refuses(Misplaced::EndsEarly),
        _ => Turn::Refuses(Misplaced::Unexpected),
    }
}

// Returns what a token does where the name of a member is expected.
fn key_turn(deep: bool, token: Token) -> Turn
    ensures { result ≡ key_turn deep token }
{
    match token {
        Token::String(name) => within(deep, Turn::Names(name)),
        Token::End => Turn::Refuses(Misplaced::EndsEarly),
        _ => Turn::Refuses(Misplaced::Unexpected),
    }
}

// Returns what a token does after a value in an array or an object.
fn next_turn(token: Token, inner: Bracket) -> Turn
    ensures { result ≡ next_turn token inner }
{
    match (token, inner) {
        (Token::Comma, Bracket::Array) => Turn::Passes(Expected::Value),
        (Token::Comma, Bracket::Object) => Turn::Passes(Expected::Key),
        (Token::EndArray, Bracket::Array) => Turn::Closes(Bracket::Array),
        (Token::EndObject, Bracket::Object) => Turn::Closes(Bracket::Object),
        (Token::End, _) => Turn::Refuses(Misplaced::EndsEarly),
        _ => Turn::Refuses(Misplaced::Unexpected),
    }
}

/// Returns what a token does where this is expected, in the array or object `inner`.
pub(crate) fn turn_of(deep: bool, inner: Bracket, expected: Expected, token: Token) -> Turn
    ensures { result ≡ turn_of deep inner expected token }
{
    match (expected, token) {
        (Expected::Value, token) => value_turn(deep, token),
        (Expected::FirstValue, Token::EndArray) => Turn::Closes(Bracket::Array),
        (Expected::FirstValue, token) => value_turn(deep, token),
        (Expected::FirstKey, Token::EndObject) => Turn::Closes(Bracket::Object),
        (Expected::FirstKey, token) => key_turn(deep, token),
        (Expected::Key, token) => key_turn(deep, token),
        (Expected::Colon, Token::Colon) => Turn::Passes(Expected::Value),
        (Expected::Colon, Token::End) => Turn::Refuses(Misplaced::EndsEarly),
        (Expected::Colon, _) => Turn::Refuses(Misplaced::Unexpected),
        (Expected::Next, token) => next_turn(token, inner),
        (Expected::End, Token::End) => Turn::Ends,
        (Expected::End, _) => Turn::Refuses(Misplaced::Unexpected),
    }
}

// Returns whether a value that is neither an array nor an object may stand where this is expected.
// A string, which `quoted` says, may be a name too.
fn takes_scalar(quoted: bool, expected: Expected) -> bool
    ensures { result ≡ takes_scalar quoted expected }
{
    match expected {
        Expected::Value => true,
        Expected::FirstValue => true,
        Expected::FirstKey => quoted,
        Expected::Key => quoted,
        _ => false,
    }
}

/// Returns why a string may not stand where this is expected, or another value that is neither an
/// array nor an object; `None` where it may.
pub(crate) fn scalar_bar(deep: bool, quoted: bool, expected: Expected) -> Option<Misplaced>
    ensures { result ≡ scalar_bar deep quoted expected }
{
    if !takes_scalar(quoted, expected) {
        return Some(Misplaced::Unexpected);
    }
    if deep {
        return Some(Misplaced::TooDeep);
    }
    None
}

/// Returns whether a number or a word begins with the byte.
pub(crate) fn begins_plain(first: u8) -> bool
    ensures { result ≡ begins_plain first }
{
    first.is_ascii_digit() || first == b'-' || first == b'n' || first == b't' || first == b'f'
}
