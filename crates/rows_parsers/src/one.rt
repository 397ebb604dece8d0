//! Combinators of one parser, and its methods.

use rows::{Fault, Words};
use rows_fronts::{Fronts, Part, Row, ask, counts, read_part};
use std::alloc::Global;
use std::fmt::Debug;
use winnow_combinator::{backtrack_err, cond, cut_err, not, opt, peek, repeat};
use winnow_error::EmptyError;
use winnow_match::Compare;
use winnow_parser::Parser;
use winnow_sets::{AsChar, CharSet};
use winnow_token::{any, literal, one_of, take, take_while};

// Answers a combinator of a parser.
fn combined<I: Fronts, P: Parser<I, EmptyError> + Copy>(
    alloc: Global,
    call: &Words,
    part: P,
    row: &Row<I::Whole>,
) -> Result<String, Fault>
where
    P::Output: Debug + Drop,
    requires { (parser : P) → P.ready parser }
{
    match call.plain(0)? {
        "opt" => ask::<I, _>(alloc, &opt(part), row),
        "peek" => ask::<I, _>(alloc, &peek(part), row),
        "not" => ask::<I, _>(alloc, &not(part), row),
        "cut_err" => ask::<I, _>(alloc, &cut_err(part), row),
        "backtrack_err" => ask::<I, _>(alloc, &backtrack_err(cut_err(part)), row),
        "cond" => {
            let is_asked = call.plain(1)? == "true";
            ask::<I, _>(alloc, &cond(is_asked, part), row)
        }
        "repeat" => {
            let values = repeat::<_, Vec<P::Output>, _>(counts(call, 1)?, part);
            ask::<I, _>(alloc, &values, row)
        }
        "repeat::<usize>" => {
            let count = repeat::<_, usize, _>(counts(call, 1)?, part);
            ask::<I, _>(alloc, &count, row)
        }
        "repeat_opt" => {
            let count = repeat::<_, usize, _>(counts(call, 1)?, opt(part));
            ask::<I, _>(alloc, &count, row)
        }
        _ => Err(Fault::NoSuchCall),
    }
}

// Answers a method of a parser.
fn with_method<I: Fronts, P: Parser<I, EmptyError> + Copy>(
    alloc: Global,
    name: &str,
    part: P,
    row: &Row<I::Whole>,
) -> Result<String, Fault>
where
    P::Output: Debug + Drop,
    I::Slice: Debug + Drop,
    requires { (parser : P) → P.ready parser }
{
    match name {
        ".void" => ask::<I, _>(alloc, &part.void(), row),
        ".value" => ask::<I, _>(alloc, &part.value(1234), row),
        ".take" => ask::<I, _>(alloc, &part.take(), row),
        ".with_taken" => ask::<I, _>(alloc, &part.with_taken(), row),
        ".by_ref" => ask::<I, &P>(alloc, &part.by_ref(), row),
        _ => Err(Fault::NoSuchCall),
    }
}

// Answers a combinator or a method of a parser; a call that begins with the parser is of a method.
fn of_one<I: Fronts, P: Parser<I, EmptyError> + Copy>(
    alloc: Global,
    call: &Words,
    place: (usize, usize),
    part: P,
    row: &Row<I::Whole>,
) -> Result<String, Fault>
where
    P::Output: Debug + Drop,
    I::Slice: Debug + Drop,
    requires { (parser : P) → P.ready parser }
{
    let (index, end) = place;
    if index == 0 {
        return with_method::<I, P>(alloc, call.plain(end)?, part, row);
    }
    combined::<I, P>(alloc, call, part, row)
}

/// Answers the combinators and the methods of one parser, which is written from this word on.
pub fn one<'w, I: Fronts + Compare<&'w str>>(
    alloc: Global,
    call: &'w Words,
    index: usize,
    row: &Row<I::Whole>,
) -> Result<String, Fault>
where
    I::Token: AsChar + Copy + Debug + Drop,
    I::Slice: Debug + Drop,
{
    let (part, end) = read_part(call, index)?;
    let place = (index, end);
    match part {
        Part::Any => of_one::<I, _>(alloc, call, place, any(), row),
        Part::Literal(text) => of_one::<I, _>(alloc, call, place, literal(text), row),
        Part::Take(count) => of_one::<I, _>(alloc, call, place, take(count), row),
        Part::OneOf(set) => {
            let parser = one_of(CharSet::new(&set));
            of_one::<I, _>(alloc, call, place, parser, row)
        }
        Part::TakeWhile(counts, set) => {
            let parser = take_while(counts, CharSet::new(&set));
            of_one::<I, _>(alloc, call, place, parser, row)
        }
    }
}
