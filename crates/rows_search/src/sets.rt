//! Rows of `contains_token`, for sets of one token, ranges, arrays and slices.

use crate::sameness::same;
use crate::{char_sets, unions};
use rows::{Fault, Word, Words};
use std::alloc::Global;
use winnow_sets::{AsChar, ContainsToken};

/// Returns whether a set holds the token that a word writes: a byte or a character.
pub fn holds<S: ContainsToken<u8> + ContainsToken<char>>(set: &S, token: &Word) -> Option<bool>
    requires byte { ⟦<S as ContainsToken<u8>>⟧.askable set.now }
    requires character { ⟦<S as ContainsToken<char>>⟧.askable set.now }
{
    match token {
        Word::Char(sign) => Some(set.contains_token(*sign)),
        Word::Bytes(bytes) => Some(set.contains_token(*bytes.as_slice().first()?)),
        _ => None,
    }
}

/// Returns whether a set holds the token to which it is given a reference.
pub fn holds_lent<'t, S: ContainsToken<&'t u8> + ContainsToken<&'t char>>(
    set: &S,
    token: &'t Word,
) -> Option<bool>
    requires byte { ⟦<S as ContainsToken<&'t u8>>⟧.askable set.now }
    requires character { ⟦<S as ContainsToken<&'t char>>⟧.askable set.now }
{
    match token {
        Word::Char(sign) => Some(set.contains_token(sign)),
        Word::Bytes(bytes) => Some(set.contains_token(bytes.as_slice().first()?)),
        _ => None,
    }
}

// The set of one token.
fn in_single(single: &Word, token: &Word) -> Option<bool> {
    match single {
        Word::Char(sign) => same(holds(sign, token)?, holds_lent(sign, token)?),
        Word::Bytes(bytes) => {
            let byte = bytes.as_slice().first()?;
            same(holds(byte, token)?, holds_lent(byte, token)?)
        }
        _ => None,
    }
}

// A range of the kind that the sign and the bounds write.
fn in_range<B: AsChar + Copy>(
    least: Option<B>,
    sign: &str,
    last: Option<B>,
    token: &Word,
) -> Option<bool> {
    match (least, sign, last) {
        (Some(least), "..", Some(last)) => holds(&(least..last), token),
        (Some(least), "..=", Some(last)) => holds(&(least..=last), token),
        (Some(least), "..", None) => holds(&(least..), token),
        (None, "..", Some(last)) => holds(&(..last), token),
        (None, "..=", Some(last)) => holds(&(..=last), token),
        (None, "..", None) => holds(&(..), token),
        _ => None,
    }
}

// The character that a word writes, if it is one.
fn sign_of(word: &Word) -> Option<char> {
    match word {
        Word::Char(sign) => Some(*sign),
        _ => None,
    }
}

// The byte that a word writes, if it is one.
fn byte_of(word: &Word) -> Option<u8> {
    match word {
        Word::Bytes(bytes) => bytes.as_slice().first().copied(),
        _ => None,
    }
}

// A range, whose bounds are both bytes or both characters.
fn in_bounds(least: &Word, sign: &str, last: &Word, token: &Word) -> Option<bool> {
    let (byte, last_byte) = (byte_of(least), byte_of(last));
    if byte.is_some() || last_byte.is_some() {
        return in_range(byte, sign, last_byte, token);
    }
    in_range(sign_of(least), sign, sign_of(last), token)
}

// A range: its bounds with the sign between them, where `_` stands for none, and the token.
fn in_written_range(words: &Words) -> Option<bool> {
    let (least, last) = (words.word(1).ok()?, words.word(3).ok()?);
    in_bounds(least, words.plain(2).ok()?, last, words.word(4).ok()?)
}

// The members of an array of two bytes, owned and lent.
fn in_bytes(bytes: [u8; 2], token: &Word) -> Option<bool> {
    same(holds(&bytes, token)?, holds(&&bytes, token)?)
}

// The members of an array of two characters, owned and lent.
fn in_signs(signs: [char; 2], token: &Word) -> Option<bool> {
    same(holds(&signs, token)?, holds(&&signs, token)?)
}

// The two characters of a text.
fn two_signs(text: &str) -> Option<[char; 2]> {
    let mut signs = text.chars();
    Some([signs.next()?, signs.next()?])
}

// The members of an array of two.
fn in_array(members: &Word, token: &Word) -> Option<bool> {
    match members {
        Word::Bytes(bytes) => in_bytes(*bytes.as_slice().as_array::<2>()?, token),
        Word::Text(text) => in_signs(two_signs(text.as_str())?, token),
        _ => None,
    }
}

// The members of a slice of characters.
fn in_sign_slice(alloc: Global, text: &str, token: &Word) -> Result<Option<bool>, Fault> {
    let signs: Vec<char> = text.chars().collect(alloc)?;
    Ok(holds(&signs.as_slice(), token))
}

// The members of a slice.
fn in_slice(alloc: Global, members: &Word, token: &Word) -> Result<Option<bool>, Fault> {
    match members {
        Word::Bytes(bytes) => Ok(holds(&bytes.as_slice(), token)),
        Word::Text(text) => in_sign_slice(alloc, text.as_str(), token),
        _ => Ok(None),
    }
}

// Returns whether a set of the kind with this name holds the token.
fn held(alloc: Global, kind: &str, words: &Words) -> Result<Option<bool>, Fault> {
    let (first, second) = (words.word(1)?, words.word(words.len().saturating_sub(1))?);
    match kind {
        "one" => Ok(in_single(first, second)),
        "range" => Ok(in_written_range(words)),
        "slice" => in_slice(alloc, first, second),
        "array" => Ok(in_array(first, second)),
        "CharSet" => char_sets::held(alloc, words, second),
        "Where" => Ok(char_sets::in_closure(words)),
        "Where-or-a" => Ok(unions::in_closure_or_letter(words)),
        _ => Ok(unions::held(kind, words.number(1).unwrap_or(0), second)),
    }
}

/// Returns whether a set holds a token: the kind of the set, its parts, and the token.
pub fn contains_token(alloc: Global, words: &Words) -> Result<String, Fault> {
    match held(alloc, words.plain(0)?, words)? {
        Some(held) => Ok(format!(in alloc; "{held}")?),
        None => Err(Fault::NoSuchCall),
    }
}
