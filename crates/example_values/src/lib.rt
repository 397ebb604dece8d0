//! The Rust crate's example `json`: values of JSON, by parsers of their own.
//!
//! `format_json` is the reader that is proved against the format's definition. This one is safe and
//! no more, and takes the code alone.
#![tactic(auto)]

use std::alloc::Global;
use winnow_ascii::{Class, multispace0};
use winnow_combinator::{
    alt, cut_err, delimited, preceded, repeat, separated, separated_pair, terminated,
};
use winnow_error::{AddContext, ParserError};
use winnow_error_context::{ContextError, StrContext, StrContextValue};
use winnow_grammar::{AsText, Layer, Reads, Text, ask, nested, part};
use winnow_parser::{ModalResult, Parser};
use winnow_token::{literal, none_of, one_of, take_while};

/// A value of JSON.
#[derive(Debug, Drop)]
pub enum JsonValue {
    /// `null`
    Null,
    /// `true` or `false`
    Boolean(bool),
    /// A text in quotes
    Str(String),
    /// A number
    Num(f64),
    /// Values in brackets
    Array(Vec<JsonValue>),
    /// Names with values, in braces
    Object(Vec<(String, JsonValue)>),
}

// Four hexadecimal digits.
#[derive(Clone, Copy, Drop)]
struct CodeUnit;

impl<I: Text, E: ParserError<I>> Reads<I, E> for CodeUnit {
    type Output = u32;

    fn read(&self, alloc: Global, input: &mut I) -> ModalResult<u32, E> {
        let digits = take_while(4, Class::HexDigit);
        let unit = digits.verify_map(|it: I::Piece| u32::from_str_radix(it.as_text(), 16).ok());
        ask(alloc, input, &unit)
    }
}

// Returns the character of a high and a low surrogate.
fn char_of(pair: (u32, u32)) -> Option<char> {
    let (high, low) = (pair.0.checked_sub(0xD800)?, pair.1.checked_sub(0xDC00)?);
    if high < 0x400 && low < 0x400 {
        char::from_u32(0x10000 + 0x400 * high + low)
    } else {
        None
    }
}

// What an escape stands for, after the backslash.
#[derive(Clone, Copy, Drop)]
struct Escaped;

impl<I: Text, E: ParserError<I>> Reads<I, E> for Escaped {
    type Output = char;

    fn read(&self, alloc: Global, input: &mut I) -> ModalResult<char, E> {
        let alone = part(CodeUnit).verify_map(|unit: u32| char::from_u32(unit));
        let pair = separated_pair(part(CodeUnit), literal("\\u"), part(CodeUnit));
        let escaped = alt((
            one_of(('"', '\\', '/')),
            one_of('b').value('\u{08}'),
            one_of('f').value('\u{0C}'),
            one_of('n').value('\n'),
            one_of('r').value('\r'),
            one_of('t').value('\t'),
            preceded(one_of('u'), alt((alone, pair.verify_map(char_of)))),
        ));
        ask(alloc, input, &escaped)
    }
}

#[derive(Clone, Copy, Drop)]
struct Quoted;

impl<I: Text, E: ParserError<I> + AddContext<I, StrContext>> Reads<I, E> for Quoted {
    type Output = String;

    fn read(&self, alloc: Global, input: &mut I) -> ModalResult<String, E> {
        let character = alt((none_of(('"', '\\')), preceded(one_of('\\'), part(Escaped))));
        let text = repeat::<_, String, _>(0.., character);
        let quoted = preceded(one_of('"'), cut_err(terminated(text, one_of('"'))));
        let wanted = StrContext::Expected(StrContextValue::Description("string"));
        ask(alloc, input, &quoted.context(wanted))
    }
}

fn number_of(text: &str) -> Option<f64> {
    fast_float::parse(text.as_bytes()).ok()
}

#[derive(Clone, Copy, Drop)]
struct Plain;

impl<I: Text, E: ParserError<I>> Reads<I, E> for Plain {
    type Output = JsonValue;

    fn read(&self, alloc: Global, input: &mut I) -> ModalResult<JsonValue, E> {
        let digits = take_while(1.., ('0'..='9', ('-', '+', '.'), ('e', 'E')));
        let number = digits.verify_map(|it: I::Piece| number_of(it.as_text()));
        let plain = alt((
            literal("null").map(|_: I::Piece| JsonValue::Null),
            literal("true").map(|_: I::Piece| JsonValue::Boolean(true)),
            literal("false").map(|_: I::Piece| JsonValue::Boolean(false)),
            number.map(|number: f64| JsonValue::Num(number)),
        ));
        ask(alloc, input, &plain)
    }
}

#[derive(Clone, Copy, Drop)]
struct Value;

impl<I: Text, E: ParserError<I> + AddContext<I, StrContext>> Layer<I, E> for Value {
    type Output = JsonValue;

    fn read<P: Parser<I, E, Output = JsonValue> + Copy + Drop>(
        &self,
        alloc: Global,
        input: &mut I,
        value: P,
    ) -> ModalResult<JsonValue, E> {
        let comma = (multispace0(), one_of(','), multispace0());
        let elements = separated::<_, _, Vec<JsonValue>, _>(0.., value, comma);
        let end = (multispace0(), one_of(']'));
        let array = preceded(
            (one_of('['), multispace0()),
            cut_err(terminated(elements, end)),
        );
        let colon = (multispace0(), one_of(':'), multispace0());
        let member = separated_pair(part(Quoted), cut_err(colon), value);
        let members = separated::<_, _, Vec<(String, JsonValue)>, _>(0.., member, comma);
        let end = (multispace0(), one_of('}'));
        let object = preceded(
            (one_of('{'), multispace0()),
            cut_err(terminated(members, end)),
        );
        let any = alt((
            part(Plain),
            part(Quoted).map(|text: String| JsonValue::Str(text)),
            array.map(|elements: Vec<JsonValue>| JsonValue::Array(elements)),
            object.map(|members: Vec<(String, JsonValue)>| JsonValue::Object(members)),
        ));
        ask(alloc, input, &any)
    }
}

/// A value of at most a hundred layers, over each stream of characters.
#[derive(Clone, Copy, Drop)]
pub struct JsonText;

impl<I: Text, E: ParserError<I> + AddContext<I, StrContext>> Reads<I, E> for JsonText {
    type Output = JsonValue;

    fn read(&self, alloc: Global, input: &mut I) -> ModalResult<JsonValue, E> {
        ask(alloc, input, &nested(Value, 100))
    }
}

/// Reads a value, of at most a hundred layers, with what is blank around it.
pub fn json(alloc: Global, input: &mut &str) -> ModalResult<JsonValue, ContextError<StrContext>> {
    delimited(multispace0(), part(JsonText), multispace0()).parse_next(alloc, input)
}
