//! Rows of sets as data: sets of ranges (`CharSet`), and closures as sets.

use crate::sameness::same;
use crate::sets::{holds, holds_lent};
use rows::{Fault, Word, Words};
use std::alloc::{AllocError, Global};
use winnow_sets::{CharSet, ContainsToken, Where};
use winnow_stream::ScriptSet;

// Returns the ranges that the words from 1 up to `end` write, each with both of its ends.
fn ranges(alloc: Global, words: &Words, end: usize) -> Result<Vec<(char, char)>, Fault> {
    let mut ranges = Vec::new(alloc);
    for number in 0..end.saturating_sub(1) / 2 {
        let at = number.saturating_mul(2).saturating_add(1);
        let range = (words.sign(at)?, words.sign(at.saturating_add(1))?);
        ranges.push(range).map_err(AllocError::from)?;
    }
    Ok(ranges)
}

// Returns whether a set of ranges holds the token, and a reference to it.
fn in_ranges(ranges: &[(char, char)], token: &Word) -> Option<bool> {
    let set = CharSet::new(ranges);
    same(holds(&set, token)?, holds_lent(&set, token)?)
}

/// Returns whether the set of the ranges before the token holds it.
pub fn held(alloc: Global, words: &Words, token: &Word) -> Result<Option<bool>, Fault> {
    let ranges = ranges(alloc, words, words.len().saturating_sub(1))?;
    Ok(in_ranges(ranges.as_slice(), token))
}

// Returns whether a set of a script holds the byte or the character, called through the bound.
fn script_holds<S: ScriptSet<u8> + ScriptSet<char>>(set: &S, token: &Word) -> Option<bool>
    requires byte { ⟦<S as ScriptSet<u8>>⟧.askable set.now }
    requires character { ⟦<S as ScriptSet<char>>⟧.askable set.now }
{
    match token {
        Word::Char(sign) => Some(set.holds(*sign)),
        Word::Bytes(bytes) => Some(set.holds(*bytes.as_slice().first()?)),
        _ => None,
    }
}

// Returns whether a set holds a byte, as a set of tokens and as a set of a script.
fn byte_held<S: ContainsToken<u8> + ScriptSet<u8>>(set: &S, token: u8) -> Option<bool>
    requires token { ⟦<S as ContainsToken<u8>>⟧.askable set.now }
    requires script { ⟦<S as ScriptSet<u8>>⟧.askable set.now }
{
    same(set.contains_token(token), set.holds(token))
}

/// Returns whether the closure of the bytes below a number holds the byte that is the last word.
pub fn in_closure(words: &Words) -> Option<bool> {
    let (low, token) = (words.number(1).ok()?, *words.bytes(2).ok()?.first()?);
    byte_held(&Where(|token: u8| (token as usize) < low), token)
}

/// Returns whether a set of ranges of a script holds the token that is the last word.
pub fn script_held(alloc: Global, words: &Words) -> Result<String, Fault> {
    let last = words.len().saturating_sub(1);
    let ranges = ranges(alloc, words, last)?;
    match script_holds(&CharSet::new(ranges.as_slice()), words.word(last)?) {
        Some(held) => Ok(format!(in alloc; "{held}")?),
        None => Err(Fault::NoSuchCall),
    }
}

/// Returns the debug text of a closure as a set.
pub fn closure_text(alloc: Global, words: &Words) -> Result<String, Fault> {
    let low = words.number(0)?;
    let small = Where(|token: usize| token < low);
    Ok(format!(in alloc; "{small:?}")?)
}

// Returns the byte and the character that a set names, or its debug text.
fn told(alloc: Global, call: &str, set: &CharSet<'_>) -> Result<String, AllocError> {
    match (call, set.any_byte(), set.any_char()) {
        ("any_byte", byte, _) => format!(in alloc; "{byte:?}"),
        ("any_char", _, sign) => format!(in alloc; "{sign:?}"),
        _ => format!(in alloc; "{set:?}"),
    }
}

/// Returns the answer of a call on a set of ranges.
pub fn answer(alloc: Global, call: &str, words: &Words) -> Result<String, Fault> {
    let ranges = ranges(alloc, words, words.len())?;
    Ok(told(alloc, call, &CharSet::new(ranges.as_slice()))?)
}
