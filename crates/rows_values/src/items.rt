//! The items that the words of a row write.

use rows::{Fault, Word, Words};
use std::alloc::{AllocError, Global};
use std::borrow::CowStr;

/// Returns the numbers that the words after the first write.
pub fn numbers(alloc: Global, words: &Words) -> Result<Vec<u8>, Fault> {
    let mut numbers = Vec::new(alloc);
    for at in 1..words.len() {
        let number = u8::try_from(words.number(at)?).map_err(|_| Fault::NoSuchCall)?;
        numbers.push(number).map_err(AllocError::from)?;
    }
    Ok(numbers)
}

/// Returns the byte slices that the words after the first write.
pub fn slices<'w>(alloc: Global, words: &'w Words) -> Result<Vec<&'w [u8]>, Fault> {
    let mut slices = Vec::new(alloc);
    for at in 1..words.len() {
        slices.push(words.bytes(at)?).map_err(AllocError::from)?;
    }
    Ok(slices)
}

/// Returns the characters that the words after the first write.
pub fn signs(alloc: Global, words: &Words) -> Result<Vec<char>, Fault> {
    let mut signs = Vec::new(alloc);
    for at in 1..words.len() {
        signs.push(words.sign(at)?).map_err(AllocError::from)?;
    }
    Ok(signs)
}

/// Returns the texts that the words after the first write.
pub fn texts<'w>(alloc: Global, words: &'w Words) -> Result<Vec<&'w str>, Fault> {
    let mut texts = Vec::new(alloc);
    for at in 1..words.len() {
        texts.push(words.text(at)?).map_err(AllocError::from)?;
    }
    Ok(texts)
}

/// Returns owned texts.
pub fn strings(alloc: Global, words: &Words) -> Result<Vec<String>, Fault> {
    let mut strings = Vec::new(alloc);
    for at in 1..words.len() {
        let text = String::from_str(alloc, words.text(at)?)?;
        strings.push(text).map_err(AllocError::from)?;
    }
    Ok(strings)
}

// Returns a text that is borrowed, or, in single quotes, owned.
fn cow<'w>(alloc: Global, word: &'w Word) -> Result<CowStr<'w, Global>, Fault> {
    match word {
        Word::Text(text) => Ok(CowStr::Borrowed(text.as_str())),
        Word::Char(sign) => {
            let mut text = String::new(alloc);
            text.push(*sign)?;
            Ok(CowStr::Owned(text))
        }
        _ => Err(Fault::NoSuchCall),
    }
}

/// Returns texts of which those in single quotes are owned.
pub fn cows<'w>(alloc: Global, words: &'w Words) -> Result<Vec<CowStr<'w, Global>>, Fault> {
    let mut cows = Vec::new(alloc);
    for at in 1..words.len() {
        cows.push(cow(alloc, words.word(at)?)?)
            .map_err(AllocError::from)?;
    }
    Ok(cows)
}

/// Returns the pairs of a number and a character.
pub fn pairs(alloc: Global, words: &Words) -> Result<Vec<(u8, char)>, Fault> {
    let mut pairs = Vec::new(alloc);
    for number in 0..words.len().saturating_sub(1) / 2 {
        let at = number.saturating_mul(2).saturating_add(1);
        let key = u8::try_from(words.number(at)?).map_err(|_| Fault::NoSuchCall)?;
        let value = words.sign(at.saturating_add(1))?;
        pairs.push((key, value)).map_err(AllocError::from)?;
    }
    Ok(pairs)
}
