//! `Token`: a token, and its parser.

ghost use Rattle.std.specs.Prelude.{◌≡◌, ◌<◌, true, [], length, IfOk, MatchOption};
ghost use Rattle.format_lemmas.specs.Bytes.{StartsWith, Starts};
ghost use Rattle.format_json_scalars.specs.Numbers.{Tells, is_number_byte};
ghost use Rattle.format_json.specs.Language.{after_blanks};
ghost use Rattle.format_json.specs.Tokens.{Word, lexeme_of, word_from};
ghost use Rattle.format_json.specs.TokenAnswers.{BeginsWord, IsTokenFound};

use crate::found::{Found, blank_count};
use format_json_scalars::{
    Number, Reading, is_number, is_number_byte, number_count, number_of, read_bytes,
};
use std::alloc::{AllocError, Global};

/// A token: what blanks may stand around.
#[derive(Debug, Drop)]
pub enum Token {
    /// `[`
    StartArray,
    /// `]`
    EndArray,
    /// `{`
    StartObject,
    /// `}`
    EndObject,
    /// `,`
    Comma,
    /// `:`
    Colon,
    /// `null`
    Null,
    /// `true` or `false`
    Bool(bool),
    /// A number, with its text
    Number(Number),
    /// A string, which may be the name of a member
    String(String),
    /// The end of the text, with the blanks before it
    End,
}

// Returns the token that this byte begins, if that is always the same word, and the word.
fn word_token(first: u8) -> Option<(Token, &'static [u8])>
    ensures { MatchOption result (word_from first ≡ [])
        (λ both. (lexeme_of both.0 ≡ Word (word_from first)) × (both.1.now ≡ word_from first)) }
{
    match first {
        b'[' => Some((Token::StartArray, b"[")),
        b']' => Some((Token::EndArray, b"]")),
        b'{' => Some((Token::StartObject, b"{")),
        b'}' => Some((Token::EndObject, b"}")),
        b',' => Some((Token::Comma, b",")),
        b':' => Some((Token::Colon, b":")),
        b'n' => Some((Token::Null, b"null")),
        b't' => Some((Token::Bool(true), b"true")),
        b'f' => Some((Token::Bool(false), b"false")),
        _ => None,
    }
}

/// Returns whether more bytes make the bytes a word that is a token.
pub(crate) fn begins_word(bytes: &[u8]) -> bool
    requires { 0 < length bytes.now }
    ensures { Tells result (BeginsWord bytes.now) }
{
    let Some(both) = word_token(bytes[0]) else {
        return false;
    };
    both.1.starts_with(bytes)
}

// Reads a token that is always the same word.
fn word_here(bytes: &[u8], partial: bool, first: u8) -> Found<Token>
    requires first { StartsWith first bytes.now }
    requires no_quote { ¬ (first ≡ 34) }
    requires no_number { ¬ (is_number_byte first ≡ true) }
    ensures { IsTokenFound partial bytes.now bytes.now result }
{
    let Some(both) = word_token(first) else {
        return Found::Damaged(0);
    };
    let (token, word) = both;
    if bytes.starts_with(word) {
        return Found::Whole(token, word.len());
    }
    if partial && word.starts_with(bytes) {
        return Found::Begun;
    }
    Found::Damaged(0)
}

// Reads a number.
fn number_here(alloc: Global, bytes: &[u8], partial: bool) -> Result<Found<Token>, AllocError>
    requires { Starts is_number_byte bytes.now }
    ensures { IfOk result (IsTokenFound partial bytes.now bytes.now) }
{
    let count = number_count(bytes);
    if partial && count == bytes.len() {
        return Ok(Found::Begun);
    }
    let text = &bytes[..count];
    if !is_number(text) {
        return Ok(Found::Damaged(0));
    }
    Ok(Found::Whole(Token::Number(number_of(alloc, text)?), count))
}

// Reads a string.
fn string_here(alloc: Global, bytes: &[u8], partial: bool) -> Result<Found<Token>, AllocError>
    requires { StartsWith 34 bytes.now }
    ensures { IfOk result (IsTokenFound partial bytes.now bytes.now) }
{
    match read_bytes(alloc, bytes)? {
        Reading::Whole(value, width) => Ok(Found::Whole(Token::String(value), width)),
        Reading::Damaged(width) => Ok(Found::Damaged(width)),
        Reading::Begun(_) if partial => Ok(Found::Begun),
        Reading::Begun(width) => Ok(Found::Damaged(width)),
        Reading::Missing => unreachable!(),
        Reading::Nothing => unreachable!(),
    }
}

// Reads a token before which no blank stands.
fn token_here(alloc: Global, bytes: &[u8], partial: bool) -> Result<Found<Token>, AllocError>
    ensures { IfOk result (IsTokenFound partial bytes.now bytes.now) }
{
    if bytes.is_empty() {
        if partial {
            return Ok(Found::Begun);
        }
        return Ok(Found::Whole(Token::End, 0));
    }
    let first = bytes[0];
    if first == b'"' {
        return string_here(alloc, bytes, partial);
    }
    if is_number_byte(first) {
        return number_here(alloc, bytes, partial);
    }
    Ok(word_here(bytes, partial, first))
}

/// Reads a token after blanks.
pub(crate) fn token_at(
    alloc: Global,
    bytes: &[u8],
    partial: bool,
) -> Result<Found<Token>, AllocError>
    ensures { IfOk result (IsTokenFound partial bytes.now (after_blanks bytes.now)) }
{
    let at = blank_count(bytes);
    match token_here(alloc, &bytes[at..], partial)? {
        Found::Whole(token, width) => Ok(Found::Whole(token, at + width)),
        Found::Begun => Ok(Found::Begun),
        Found::Damaged(width) => Ok(Found::Damaged(at + width)),
    }
}
