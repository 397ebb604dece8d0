//! A parser's answers on a whole input and on each front of it.

use crate::Fronts;
use rows::{Fault, Words};
use std::alloc::Global;
use std::fmt::Debug;
use winnow_error::EmptyError;
use winnow_parser::{Failure, Parser};

/// An input, and the number of its fronts on which the parser needs more, the empty one first; or
/// no number, where the input is itself a front.
#[derive(Clone, Copy)]
pub struct Row<W> {
    whole: W,
    waits: Option<usize>,
}

impl<W> Row<W> {
    /// Returns the row of an input, whose second word is the number of fronts, or `..`.
    pub fn of(whole: W, input: &Words) -> Result<Row<W>, Fault>
    where
        W: Drop,
    {
        if let Ok("..") = input.plain(1) {
            return Ok(Row { whole, waits: None });
        }
        match input.number(1) {
            Ok(waits) => Ok(Row {
                whole,
                waits: Some(waits),
            }),
            Err(fault) => Err(fault),
        }
    }
}

#[derive(Clone, Copy, PartialEq, Eq)]
enum Kind {
    Read,
    Backtrack,
    Cut,
    NeedsMore,
}

// An outcome: its kind, the value or the need with a comma after it, what remains, and its width.
#[derive(Drop)]
struct Outcome {
    kind: Kind,
    value: String,
    rest: String,
    left: usize,
}

impl Outcome {
    // Returns whether this is the same answer where this number of bytes is still to come.
    fn is_same(&self, whole: &Outcome, to_come: usize) -> bool {
        self.kind == whole.kind
            && self.value.as_str() == whole.value.as_str()
            && self.left.saturating_add(to_come) == whole.left
    }

    // Returns the text of the answer, and of what is said after it.
    fn text(&self, alloc: Global, after: &str) -> Result<String, Fault> {
        let kind = match self.kind {
            Kind::Read => "Read",
            Kind::Backtrack => "Backtrack",
            Kind::Cut => "Cut",
            Kind::NeedsMore => "NeedsMore",
        };
        let (value, rest) = (self.value.as_str(), self.rest.as_str());
        Ok(format!(in alloc; "{kind}({value}{rest}){after}")?)
    }
}

// Returns the answer of a parser on a stream.
fn answer<I: Fronts, P: Parser<I, EmptyError>>(
    alloc: Global,
    parser: &P,
    input: I,
) -> Result<Outcome, Fault>
where
    P::Output: Debug + Drop,
    requires ready { P.ready parser.now }
    requires valid { I.valid input }
{
    let mut input = input;
    let (kind, value) = match parser.parse_next(alloc, &mut input) {
        Ok(value) => (Kind::Read, format!(in alloc; "{value:?}, ")?),
        Err(Failure::Backtrack(_)) => (Kind::Backtrack, String::new(alloc)),
        Err(Failure::Cut(_)) => (Kind::Cut, String::new(alloc)),
        Err(Failure::Incomplete(needed)) => {
            (Kind::NeedsMore, format!(in alloc; "{needed:?}, ")?)
        }
        Err(Failure::Refused(_)) => return Err(Fault::OutOfMemory),
    };
    let left = input.eof_offset();
    let rest = input.rest(alloc)?;
    Ok(Outcome {
        kind,
        value,
        rest,
        left,
    })
}

// Returns the answer of the whole, where each front is answered so or needs more, the short ones.
fn ask_fronts<I: Fronts, P: Parser<I, EmptyError>>(
    alloc: Global,
    parser: &P,
    whole: I::Whole,
    waits: usize,
) -> Result<String, Fault>
where
    P::Output: Debug + Drop,
    requires { P.ready parser.now }
{
    let wanted = answer(alloc, parser, I::of_whole(whole))?;
    let width = I::width(whole);
    let mut number = 0usize;
    for end in 0..=width {
        if !I::has_front(whole, end) {
            continue;
        }
        let front = answer(alloc, parser, I::of_front(whole, end))?;
        let is_right = if number < waits {
            front.kind == Kind::NeedsMore
        } else {
            front.is_same(&wanted, width.saturating_sub(end))
        };
        if !is_right {
            return front.text(alloc, format!(in alloc; " on the front of {end}")?.as_str());
        }
        number = number.saturating_add(1);
    }
    wanted.text(alloc, "")
}

/// Returns what a parser answers on the input of a row, or what it answers on the first front that
/// is answered differently.
pub fn ask<I: Fronts, P: Parser<I, EmptyError>>(
    alloc: Global,
    parser: &P,
    row: &Row<I::Whole>,
) -> Result<String, Fault>
where
    P::Output: Debug + Drop,
    requires { P.ready parser.now }
{
    let whole = row.whole;
    match row.waits {
        Some(waits) => ask_fronts::<I, P>(alloc, parser, whole, waits),
        None => {
            let end = I::width(whole);
            answer(alloc, parser, I::of_front(whole, end))?.text(alloc, "")
        }
    }
}
