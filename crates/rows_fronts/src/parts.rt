//! The parsers that a call of a row writes, as data: `literal("abc")`, `one_of('a'..='z')`.

use rows::{Fault, Word, Words};
use winnow_count::Range;

/// A set of characters, in four ranges; one whose ends are reversed has no character.
pub type Set = [(char, char); 4];

const NO_RANGE: (char, char) = ('\u{1}', '\0');

/// A parser of tokens.
#[derive(Clone, Copy)]
pub enum Part<'w> {
    Any,
    Literal(&'w str),
    OneOf(Set),
    Take(usize),
    TakeWhile(Range, Set),
}

// Returns the last character of a range: `..='z'`.
fn last(word: &Word) -> Option<char> {
    match word {
        Word::Plain(text) => text.as_str().strip_prefix("..='")?.chars().next(),
        _ => None,
    }
}

// Returns a range of a set, from this word on, and the index of the word after it.
fn range(words: &Words, index: usize) -> ((char, char), usize) {
    let Ok(first) = words.sign(index) else {
        return (NO_RANGE, index);
    };
    let after = index.saturating_add(1);
    let Ok(next) = words.word(after) else {
        return ((first, first), after);
    };
    match last(next) {
        Some(last) => ((first, last), after.saturating_add(1)),
        None => ((first, first), after),
    }
}

/// Returns a set, from this word on, and the index of the word after it.
pub fn set(words: &Words, index: usize) -> (Set, usize) {
    let (first, index) = range(words, index);
    let (second, index) = range(words, index);
    let (third, index) = range(words, index);
    let (fourth, index) = range(words, index);
    ([first, second, third, fourth], index)
}

// Returns a number.
fn number(text: &str) -> Result<usize, Fault> {
    text.parse::<usize>().map_err(|_| Fault::NoSuchCall)
}

/// Returns a range of counts: a number, or a range of numbers.
pub fn counts(words: &Words, index: usize) -> Result<Range, Fault> {
    let text = words.plain(index)?;
    let Some((least, greatest)) = text.split_once("..") else {
        return Ok(Range::from(number(text)?));
    };
    let least = if least.is_empty() { 0 } else { number(least)? };
    if greatest.is_empty() {
        return Ok(Range::from(least..));
    }
    match greatest.strip_prefix("=") {
        Some(greatest) => Ok(Range::from(least..=number(greatest)?)),
        None => Ok(Range::from(least..number(greatest)?)),
    }
}

/// Returns the parser from this word on, and the index of the word after it.
pub fn read_part(words: &Words, index: usize) -> Result<(Part<'_>, usize), Fault> {
    let next = index.saturating_add(1);
    let after = next.saturating_add(1);
    match words.plain(index)? {
        "any" => Ok((Part::Any, next)),
        "literal" => Ok((Part::Literal(words.text(next)?), after)),
        "take" => Ok((Part::Take(words.number(next)?), after)),
        "one_of" => {
            let (set, end) = set(words, next);
            Ok((Part::OneOf(set), end))
        }
        "take_while" => {
            let counts = counts(words, next)?;
            let (set, end) = set(words, after);
            Ok((Part::TakeWhile(counts, set), end))
        }
        _ => Err(Fault::NoSuchCall),
    }
}
