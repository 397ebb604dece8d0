//! Parsers whose values are handed to a function.

use rows::{Fault, Words};
use rows_fronts::{Fronts, Row, ask, counts, set};
use std::alloc::Global;
use std::fmt::Debug;
use winnow_combinator::{eof, preceded, repeat, separated_foldl1};
use winnow_error::EmptyError;
use winnow_parser::Parser;
use winnow_sets::CharSet;
use winnow_stream::Stream;
use winnow_token::{any, one_of, take, take_till, take_while};

// Answers a method of a parser of words.
fn of_words<'w, I: Fronts, P: Parser<I, EmptyError, Output = &'w str> + Copy>(
    alloc: Global,
    method: (&str, usize),
    part: P,
    row: &Row<I::Whole>,
) -> Result<String, Fault>
    requires { (parser : P) → P.ready parser }
{
    let (name, number) = method;
    match name {
        ".verify_len" => {
            let of_width = part.verify(|word: &str| word.len() == number);
            ask::<I, _>(alloc, &of_width, row)
        }
        ".verify_map" => {
            let byte = part.verify_map(|digits: &str| digits.parse::<u8>().ok());
            ask::<I, _>(alloc, &byte, row)
        }
        ".try_map" => {
            let byte = part.try_map(|digits: &str| digits.parse::<u8>());
            ask::<I, _>(alloc, &byte, row)
        }
        ".map_len" => ask::<I, _>(alloc, &part.map(|word: &str| word.len()), row),
        _ => Err(Fault::NoSuchCall),
    }
}

/// Answers the methods that hand the slice of `take_while` to a function: `.map_len()`, its width;
/// `.verify_len(n)`, that it has this width; `.verify_map()` and `.try_map()`, the byte that it
/// writes.
pub fn words<'w, I: Fronts + Stream<Token = char, Slice = &'w str>>(
    alloc: Global,
    (call, end): (&Words, usize),
    row: &Row<I::Whole>,
) -> Result<String, Fault> {
    let name = call.plain(end)?;
    let number = call.number(end.saturating_add(1)).unwrap_or(0);
    let ranges = set(call, 2).0;
    let part = take_while(counts(call, 1)?, CharSet::new(&ranges));
    of_words::<I, _>(alloc, (name, number), part, row)
}

// Answers what is made of characters.
fn of_characters<I: Fronts, C: Parser<I, EmptyError, Output = char> + Copy>(
    alloc: Global,
    name: &str,
    parts: (C, C),
    row: &Row<I::Whole>,
) -> Result<String, Fault>
    requires { (parser : C) → C.ready parser }
{
    let (first, second) = parts;
    match name {
        "repeat_fold" => {
            let doubled = repeat(0.., first).fold(|| 1, |n: usize, _: char| n.wrapping_mul(2));
            ask::<I, _>(alloc, &doubled, row)
        }
        "separated_foldl1" => {
            let last = separated_foldl1(first, second, |_, _, letter: char| letter);
            ask::<I, _>(alloc, &last, row)
        }
        _ => Err(Fault::NoSuchCall),
    }
}

/// Answers `repeat_fold(one_of(..))`, which doubles 1 at each character, and
/// `separated_foldl1(one_of(..), one_of(..))`, whose function returns the last character.
pub fn characters<I: Fronts + Stream<Token = char>>(
    alloc: Global,
    call: &Words,
    row: &Row<I::Whole>,
) -> Result<String, Fault> {
    let (letters, end) = set(call, 2);
    let (separators, _) = set(call, end.saturating_add(1));
    let parts = (
        one_of(CharSet::new(&letters)),
        one_of(CharSet::new(&separators)),
    );
    of_characters::<I, _>(alloc, call.plain(0)?, parts, row)
}

/// Answers `counted()`: as many characters as the digit before them says.
pub fn counted<I: Fronts + Stream<Token = char>>(
    alloc: Global,
    row: &Row<I::Whole>,
) -> Result<String, Fault>
where
    I::Slice: Debug + Drop,
{
    let count = one_of('0'..='9').map(|digit: char| (digit as usize).saturating_sub(48));
    let parser = count.flat_map(|count: usize| take(count));
    ask::<I, _>(alloc, &parser, row)
}

/// Answers `three_and_end()`: three tokens, and the end.
pub fn three_and_end<I: Fronts + Stream<Token = char>>(
    alloc: Global,
    row: &Row<I::Whole>,
) -> Result<String, Fault>
where
    I::Slice: Debug + Drop,
{
    ask::<I, _>(alloc, &(any(), any(), any(), eof()), row)
}

/// Answers `setting()`: letters, the sign `=`, and what stands up to the end of the line.
pub fn setting<I: Fronts + Stream<Token = u8>>(
    alloc: Global,
    row: &Row<I::Whole>,
) -> Result<String, Fault>
where
    I::Slice: Debug + Drop,
{
    let key = take_while(1.., b'a'..=b'z');
    let value = preceded(one_of(b'='), take_till(0.., b'\n'));
    ask::<I, _>(alloc, &(key, value), row)
}
