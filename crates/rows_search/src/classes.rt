//! Rows of the methods of `AsChar`, at bytes, at characters and at references to them.

use crate::sameness::same;
use rows::{Fault, Word, Words};
use std::alloc::Global;
use winnow_sets::AsChar;

// What a method of a token answers.
#[derive(PartialEq, Drop)]
enum Property {
    Sign(char),
    Width(usize),
    IsOf(bool),
}

// Returns what a method of a token answers.
fn told<T: AsChar + Drop>(call: &str, token: T) -> Option<Property> {
    match call {
        "as_char" => Some(Property::Sign(token.as_char())),
        "len" => Some(Property::Width(token.len())),
        "is_alpha" => Some(Property::IsOf(token.is_alpha())),
        "is_alphanum" => Some(Property::IsOf(token.is_alphanum())),
        "is_dec_digit" => Some(Property::IsOf(token.is_dec_digit())),
        "is_hex_digit" => Some(Property::IsOf(token.is_hex_digit())),
        "is_oct_digit" => Some(Property::IsOf(token.is_oct_digit())),
        "is_space" => Some(Property::IsOf(token.is_space())),
        "is_newline" => Some(Property::IsOf(token.is_newline())),
        _ => None,
    }
}

// Returns what a method answers of a token and of a reference to it.
fn told_of(call: &str, token: &Word) -> Option<Property> {
    match token {
        Word::Char(sign) => same(told(call, *sign)?, told(call, sign)?),
        Word::Bytes(bytes) => {
            let byte = bytes.as_slice().first()?;
            same(told(call, *byte)?, told(call, byte)?)
        }
        _ => None,
    }
}

/// Returns what a method of a token answers.
pub fn answer(alloc: Global, call: &str, words: &Words) -> Result<String, Fault> {
    match told_of(call, words.word(0)?) {
        Some(Property::Sign(sign)) => Ok(format!(in alloc; "{sign:?}")?),
        Some(Property::Width(width)) => Ok(format!(in alloc; "{width}")?),
        Some(Property::IsOf(held)) => Ok(format!(in alloc; "{held}")?),
        None => Err(Fault::NoSuchCall),
    }
}
