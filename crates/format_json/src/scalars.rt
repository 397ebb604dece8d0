//! The parsers of values that hold no other value.

ghost use Rattle.std.specs.Prelude.{◌≡◌, ℕ, IfOk};
ghost use Rattle.format_lemmas.specs.Bytes.{StartsWith};
ghost use Rattle.format_json_scalars.specs.Numbers.{BeginsNumber};
ghost use Rattle.format_json_scalars.specs.StringAnswers.{IsBegun, StringHere};
ghost use Rattle.format_json.specs.Language.{ValueHere};
ghost use Rattle.format_json_scalars.specs.NumberAnswers.{NumberHere};
ghost use Rattle.format_json.specs.Founds.{IsFound, IsWord};
ghost use Rattle.format_json.specs.Damage.{StringBreaksOff, ScalarBreaksOff, IsPlaced};
ghost use Rattle.format_json.specs.Begun.{BeginsWord, BeginsScalar, IsOpen};

use crate::Value;
use crate::found::{Found, word_at};
use format_json_scalars::{
    Number, Reading, begins_number, is_number, number_count, number_of, read_bytes,
};
use std::alloc::{AllocError, Global};

// Reads a number with which the bytes begin.
// Inlined, as a word is: an answer that a call hands up goes through memory.
#[inline(always)]
pub(crate) fn number_at(
    alloc: Global,
    bytes: &[u8],
    partial: bool,
) -> Result<Found<Number>, AllocError>
    ensures found { IfOk result (IsFound (NumberHere partial) partial bytes.now) }
    ensures place { IfOk result (IsPlaced (λ whole rest. rest ≡ whole) bytes.now) }
    ensures begun { IfOk result (IsOpen BeginsNumber bytes.now) }
{
    let count = number_count(bytes);
    let text = &bytes[..count];
    if partial && count == bytes.len() {
        if begins_number(text) {
            return Ok(Found::Begun);
        }
        return Ok(Found::Damaged(0));
    }
    if !is_number(text) {
        return Ok(Found::Damaged(0));
    }
    Ok(Found::Whole(number_of(alloc, text)?, count))
}

// Reads a string with which the bytes begin.
#[inline(never)]
pub(crate) fn string_at(
    alloc: Global,
    bytes: &[u8],
    partial: bool,
) -> Result<Found<String>, AllocError>
    ensures found { IfOk result (IsFound StringHere partial bytes.now) }
    ensures place { IfOk result (IsPlaced (StringBreaksOff partial) bytes.now) }
    ensures begun { IfOk result (IsOpen IsBegun bytes.now) }
{
    match read_bytes(alloc, bytes)? {
        Reading::Whole(value, width) => Ok(Found::Whole(value, width)),
        Reading::Damaged(width) => Ok(Found::Damaged(width)),
        Reading::Missing => Ok(Found::Damaged(0)),
        Reading::Nothing if partial => Ok(Found::Begun),
        Reading::Nothing => Ok(Found::Damaged(0)),
        Reading::Begun(_) if partial => Ok(Found::Begun),
        Reading::Begun(width) => Ok(Found::Damaged(width)),
    }
}

// Reads a word that spells the value.
#[inline(always)]
fn word_value(bytes: &[u8], partial: bool, word: &[u8], value: Value) -> Found<Value>
    ensures found { IsFound (IsWord word.now value) partial bytes.now result }
    ensures place { IsPlaced (λ whole rest. rest ≡ whole) bytes.now result }
    ensures begun { IsOpen (BeginsWord word.now) bytes.now result }
{
    match word_at(bytes, partial, word) {
        Found::Whole(_, width) => Found::Whole(value, width),
        Found::Begun => Found::Begun,
        Found::Damaged(width) => Found::Damaged(width),
    }
}

// Reads a value that is neither an array nor an object.
#[inline(always)]
pub(crate) fn scalar_at(
    alloc: Global,
    bytes: &[u8],
    partial: bool,
) -> Result<Found<Value>, AllocError>
    requires no_array { ¬ (StartsWith 91 bytes.now) }
    requires no_object { ¬ (StartsWith 123 bytes.now) }
    ensures found { (depth : ℕ)
        → IfOk result (IsFound (ValueHere partial depth) partial bytes.now) }
    ensures place { IfOk result (IsPlaced (ScalarBreaksOff partial) bytes.now) }
    ensures begun { IfOk result (IsOpen BeginsScalar bytes.now) }
{
    if bytes.is_empty() {
        if partial {
            return Ok(Found::Begun);
        }
        return Ok(Found::Damaged(0));
    }
    let first = bytes[0];
    if first == b'n' {
        return Ok(word_value(bytes, partial, b"null", Value::Null));
    }
    if first == b't' {
        return Ok(word_value(bytes, partial, b"true", Value::Bool(true)));
    }
    if first == b'f' {
        return Ok(word_value(bytes, partial, b"false", Value::Bool(false)));
    }
    if first == b'"' {
        return match string_at(alloc, bytes, partial)? {
            Found::Whole(value, width) => Ok(Found::Whole(Value::String(value), width)),
            Found::Begun => Ok(Found::Begun),
            Found::Damaged(width) => Ok(Found::Damaged(width)),
        };
    }
    match number_at(alloc, bytes, partial)? {
        Found::Whole(value, width) => Ok(Found::Whole(Value::Number(value), width)),
        Found::Begun => Ok(Found::Begun),
        Found::Damaged(width) => Ok(Found::Damaged(width)),
    }
}
