//! Combinators of two parsers and of three, and tuples.

use rows::{Fault, Words};
use rows_fronts::{Fronts, Part, Row, ask, counts, read_part};
use std::alloc::Global;
use std::fmt::Debug;
use winnow_combinator::{
    cut_err, delimited, preceded, repeat_till, separated, separated_pair, terminated,
};
use winnow_error::EmptyError;
use winnow_match::Compare;
use winnow_parser::Parser;
use winnow_sets::{AsChar, CharSet};
use winnow_token::{any, literal, one_of, take, take_while};

// Answers a combinator of two parsers.
fn of_two<I: Fronts, A: Parser<I, EmptyError> + Copy, B: Parser<I, EmptyError> + Copy>(
    alloc: Global,
    call: &Words,
    parts: (A, B),
    row: &Row<I::Whole>,
) -> Result<String, Fault>
where
    A::Output: Debug + Drop,
    B::Output: Debug + Drop,
    requires first { (parser : A) → A.ready parser }
    requires second { (parser : B) → B.ready parser }
{
    let (first, second) = parts;
    match call.plain(0)? {
        "preceded" => ask::<I, _>(alloc, &preceded(first, second), row),
        "terminated" => ask::<I, _>(alloc, &terminated(first, second), row),
        "separated" => {
            let list = separated::<_, _, Vec<A::Output>, _>(counts(call, 1)?, first, second);
            ask::<I, _>(alloc, &list, row)
        }
        "repeat_till" => {
            let list = repeat_till::<_, _, Vec<A::Output>, _>(counts(call, 1)?, first, second);
            ask::<I, _>(alloc, &list, row)
        }
        "repeat_till_cut_err" => {
            let end = cut_err(second);
            let list = repeat_till::<_, _, Vec<A::Output>, _>(counts(call, 1)?, first, end);
            ask::<I, _>(alloc, &list, row)
        }
        _ => ask::<I, _>(alloc, &(first, second), row),
    }
}

// Answers a combinator of three parsers, the first and the last of one type.
fn of_three<I: Fronts, A: Parser<I, EmptyError> + Copy, B: Parser<I, EmptyError> + Copy>(
    alloc: Global,
    place: (&Words, usize),
    parts: (A, B, A),
    row: &Row<I::Whole>,
) -> Result<String, Fault>
where
    A::Output: Debug + Drop,
    B::Output: Debug + Drop,
    I::Slice: Debug + Drop,
    requires first { (parser : A) → A.ready parser }
    requires second { (parser : B) → B.ready parser }
{
    let (first, second, third) = parts;
    let (call, end) = place;
    match call.plain(0)? {
        "delimited" => ask::<I, _>(alloc, &delimited(first, second, third), row),
        "separated_pair" if end < call.len() => {
            ask::<I, _>(alloc, &separated_pair(first, second, third).take(), row)
        }
        "separated_pair" => ask::<I, _>(alloc, &separated_pair(first, second, third), row),
        _ => ask::<I, _>(alloc, &(first, second, third), row),
    }
}

/// Answers the combinators of two parsers, which are written from this word on.
pub fn two<'w, I: Fronts + Compare<&'w str>>(
    alloc: Global,
    call: &'w Words,
    index: usize,
    row: &Row<I::Whole>,
) -> Result<String, Fault>
where
    I::Token: AsChar + Copy + Debug + Drop,
    I::Slice: Debug + Drop,
{
    let (first, index) = read_part(call, index)?;
    let (second, _) = read_part(call, index)?;
    match (first, second) {
        (Part::Literal(first), Part::Literal(second)) => {
            of_two::<I, _, _>(alloc, call, (literal(first), literal(second)), row)
        }
        (Part::Literal(first), Part::OneOf(set)) => {
            let second = one_of(CharSet::new(&set));
            of_two::<I, _, _>(alloc, call, (literal(first), second), row)
        }
        (Part::OneOf(set), Part::OneOf(other)) => {
            let parts = (one_of(CharSet::new(&set)), one_of(CharSet::new(&other)));
            of_two::<I, _, _>(alloc, call, parts, row)
        }
        (Part::TakeWhile(counts, set), Part::OneOf(other)) => {
            let first = take_while(counts, CharSet::new(&set));
            let second = one_of(CharSet::new(&other));
            of_two::<I, _, _>(alloc, call, (first, second), row)
        }
        (Part::Any, Part::Literal(second)) => {
            of_two::<I, _, _>(alloc, call, (any(), literal(second)), row)
        }
        (Part::Take(count), Part::Literal(second)) => {
            of_two::<I, _, _>(alloc, call, (take(count), literal(second)), row)
        }
        _ => Err(Fault::NoSuchCall),
    }
}

/// Answers the combinators of three parsers, which are written from this word on.
pub fn three<'w, I: Fronts + Compare<&'w str>>(
    alloc: Global,
    call: &'w Words,
    index: usize,
    row: &Row<I::Whole>,
) -> Result<String, Fault>
where
    I::Token: AsChar + Copy + Debug + Drop,
    I::Slice: Debug + Drop,
{
    let (first, index) = read_part(call, index)?;
    let (second, index) = read_part(call, index)?;
    let (third, end) = read_part(call, index)?;
    let call = (call, end);
    match (first, second, third) {
        (Part::Literal(first), Part::Literal(second), Part::Literal(third)) => {
            let parts = (literal(first), literal(second), literal(third));
            of_three::<I, _, _>(alloc, call, parts, row)
        }
        (Part::OneOf(set), Part::Literal(second), Part::OneOf(other)) => {
            let (first, third) = (one_of(CharSet::new(&set)), one_of(CharSet::new(&other)));
            of_three::<I, _, _>(alloc, call, (first, literal(second), third), row)
        }
        (Part::TakeWhile(counts, set), Part::OneOf(sign), Part::TakeWhile(others, other)) => {
            let first = take_while(counts, CharSet::new(&set));
            let third = take_while(others, CharSet::new(&other));
            let second = one_of(CharSet::new(&sign));
            of_three::<I, _, _>(alloc, call, (first, second, third), row)
        }
        _ => Err(Fault::NoSuchCall),
    }
}
