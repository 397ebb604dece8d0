//! Alternatives, all of one type.

use rows::{Fault, Words};
use rows_fronts::{Fronts, Part, Row, Set, ask, read_part};
use std::alloc::Global;
use std::fmt::Debug;
use winnow_combinator::alt;
use winnow_count::Range;
use winnow_error::EmptyError;
use winnow_match::Compare;
use winnow_parser::Parser;
use winnow_sets::{AsChar, CharSet};
use winnow_token::{literal, one_of, take_while};

// Answers the first alternatives, as many as the count says.
fn of_alternatives<I: Fronts, P: Parser<I, EmptyError> + Copy>(
    alloc: Global,
    count: usize,
    parts: (P, P, P, P, P),
    row: &Row<I::Whole>,
) -> Result<String, Fault>
where
    P::Output: Debug + Drop,
    requires { (parser : P) → P.ready parser }
{
    let (first, second, third, fourth, fifth) = parts;
    match count {
        2 => ask::<I, _>(alloc, &alt((first, second)), row),
        3 => ask::<I, _>(alloc, &alt((first, second, third)), row),
        4 => ask::<I, _>(alloc, &alt((first, second, third, fourth)), row),
        5 => ask::<I, _>(alloc, &alt((first, second, third, fourth, fifth)), row),
        _ => Err(Fault::NoSuchCall),
    }
}

// The alternatives of a call: the last one stands for those that are not written.
type Parts<'w> = (Part<'w>, Part<'w>, Part<'w>, Part<'w>, Part<'w>);

// Returns the parser that is written from a word on, or else this one, the index after it, and
// whether one is written.
fn next<'w>(words: &'w Words, (part, index): (Part<'w>, usize)) -> (Part<'w>, usize, bool) {
    match read_part(words, index) {
        Ok((part, index)) => (part, index, true),
        Err(_) => (part, index, false),
    }
}

// Returns the alternatives of a call, and how many it writes.
fn read_parts(words: &Words) -> Result<(Parts<'_>, usize), Fault> {
    let (first, index) = read_part(words, 1)?;
    let (second, index, two) = next(words, (first, index));
    let (third, index, three) = next(words, (second, index));
    let (fourth, index, four) = next(words, (third, index));
    let (fifth, _, five) = next(words, (fourth, index));
    let count = match (two, three, four, five) {
        (true, true, true, true) => 5,
        (true, true, true, false) => 4,
        (true, true, false, false) => 3,
        (true, false, false, false) => 2,
        _ => 1,
    };
    Ok(((first, second, third, fourth, fifth), count))
}

// Answers `alt` of a `take_while` and of others that are alike.
fn of_words<I: Fronts>(
    alloc: Global,
    count: usize,
    (first, other): ((Range, Set), (Range, Set)),
    row: &Row<I::Whole>,
) -> Result<String, Fault>
where
    I::Token: AsChar + Copy + Debug + Drop,
    I::Slice: Debug + Drop,
{
    let (counts, set) = first;
    let (other_counts, other_set) = other;
    let first = take_while(counts, CharSet::new(&set));
    let other = take_while(other_counts, CharSet::new(&other_set));
    of_alternatives::<I, _>(alloc, count, (first, other, other, other, other), row)
}

/// Answers `alt`.
pub fn choice<'w, I: Fronts + Compare<&'w str>>(
    alloc: Global,
    call: &'w Words,
    row: &Row<I::Whole>,
) -> Result<String, Fault>
where
    I::Token: AsChar + Copy + Debug + Drop,
    I::Slice: Debug + Drop,
{
    let (parts, count) = read_parts(call)?;
    match parts {
        (
            Part::Literal(a),
            Part::Literal(b),
            Part::Literal(c),
            Part::Literal(d),
            Part::Literal(e),
        ) => {
            let list = (literal(a), literal(b), literal(c), literal(d), literal(e));
            of_alternatives::<I, _>(alloc, count, list, row)
        }
        (Part::OneOf(a), Part::OneOf(b), Part::OneOf(c), Part::OneOf(d), Part::OneOf(e)) => {
            let (a, b, c) = (CharSet::new(&a), CharSet::new(&b), CharSet::new(&c));
            let (d, e) = (CharSet::new(&d), CharSet::new(&e));
            let list = (one_of(a), one_of(b), one_of(c), one_of(d), one_of(e));
            of_alternatives::<I, _>(alloc, count, list, row)
        }
        (Part::TakeWhile(n, a), Part::TakeWhile(m, b), Part::TakeWhile(..), _, _) => {
            of_words::<I>(alloc, count, ((n, a), (m, b)), row)
        }
        _ => Err(Fault::NoSuchCall),
    }
}
