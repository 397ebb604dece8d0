//! The words of a line: numbers, literals, needles and ranges.

ghost use Rattle.std.specs.Prelude.{◌≡◌, ◌↔◌, ◌^◌, ◌<◌, IfOk, IfSome, IsSome};
ghost use Rattle.std.specs.Char.{IsScalar};
ghost use Rattle.std.specs.Option.{SomeIff};
ghost use Rattle.std.specs.Str.Parse.{IsNumeral, digits_value};
ghost use Rattle.winnow_script_lines.specs.Literals.{DenotesLiteral};
ghost use Rattle.winnow_script_lines.specs.Readings.{IsReading};
ghost use Rattle.winnow_script_lines.specs.Words.{first_word, later_words, HasSpace, DenotesRange};
ghost use Rattle.winnow_script_lines.specs.Words.{DenotesRanges, DenotesNeedles};

use crate::contents::Contents;
use crate::literals::literal;
use std::alloc::{AllocError, Global};
use winnow_match::Needles;

/// Returns the first word and the words after its space, or `None` if there is no space.
pub fn split_word(words: &str) -> Option<(&str, &str)>
    ensures found { IsSome result ↔ HasSpace words.now }
    ensures first { IfSome result (λ parts. parts.0.now ≡ first_word words.now) }
    ensures later { IfSome result (λ parts. parts.1.now ≡ later_words words.now) }
{
    words.split_once(' ')
}

/// Returns the number that the decimal digits of a word write, if the number fits.
pub fn read_number(word: &str) -> Option<usize>
    ensures { SomeIff result (IsNumeral 10 word.now × (digits_value 10 word.now < 2 ^ 64))
        (digits_value 10 word.now) }
{
    // `parse` would accept a sign.
    if word.starts_with('+') {
        return None;
    }
    word.parse().ok()
}

/// Returns the literal that a word means, or `None` if the word means no bytes, or bytes that are
/// no literal.
pub fn read_literal<L: Contents>(alloc: Global, word: &str) -> Result<Option<L>, AllocError>
    ensures { IfOk result (IsReading (DenotesLiteral L.bytes) word.now) }
{
    match literal(alloc, word.as_bytes())? {
        Some(bytes) => Ok(L::from_bytes(bytes)),
        None => Ok(None),
    }
}

/// Returns the needles that one to three words mean, or `None` if they mean none.
pub fn read_needles<L: Contents>(
    alloc: Global,
    words: &str,
) -> Result<Option<Needles<L>>, AllocError>
    ensures { IfOk result (IsReading (DenotesNeedles L.bytes) words.now) }
{
    let Some((first, later)) = split_word(words) else {
        return match read_literal(alloc, words)? {
            Some(only) => Ok(Some(Needles::One(only))),
            None => Ok(None),
        };
    };
    let Some(first) = read_literal(alloc, first)? else {
        return Ok(None);
    };
    let Some((second, third)) = split_word(later) else {
        return match read_literal(alloc, later)? {
            Some(second) => Ok(Some(Needles::Two(first, second))),
            None => Ok(None),
        };
    };
    let Some(second) = read_literal(alloc, second)? else {
        return Ok(None);
    };
    match read_literal(alloc, third)? {
        Some(third) => Ok(Some(Needles::Three(first, second, third))),
        None => Ok(None),
    }
}

/// Returns the ranges that a word means: none for `-`, and else those between its commas. Returns
/// `None` for a word that means no ranges.
pub fn read_ranges(alloc: Global, word: &str) -> Result<Option<Vec<(char, char)>>, AllocError>
    ensures { IfOk result (IsReading (λ told ranges. DenotesRanges told ranges.items) word.now) }
{
    let mut ranges = Vec::new(alloc);
    if word == "-" {
        return Ok(Some(ranges));
    }
    for part in word.split(',') {
        let Some(range) = read_range(part) else {
            return Ok(None);
        };
        ranges.push(range)?;
    }
    Ok(Some(ranges))
}

fn read_range(word: &str) -> Option<(char, char)>
    ensures { IsReading DenotesRange word.now result }
{
    let (low, high) = word.split_once("..")?;
    Some((read_char(low)?, read_char(high)?))
}

// Returns the character whose number the decimal digits of a word write.
fn read_char(word: &str) -> Option<char>
    ensures { SomeIff result (IsNumeral 10 word.now × IsScalar (digits_value 10 word.now))
        (digits_value 10 word.now) }
{
    let number = read_number(word)?;
    char::from_u32(u32::try_from(number).ok()?)
}
