//! Whole inputs, the places of what was read, and the errors that failures carry.

ghost use Rattle.winnow_stream.specs.Location.{IsLocation};

use rows::Fault;
use std::alloc::Global;
use std::fmt::Debug;
use std::ops::Range;
use winnow_combinator::alt;
use winnow_error::{AddContext, EmptyError, InputError, ParserError};
use winnow_error_context::ContextError;
use winnow_match::Compare;
use winnow_parser::{Failure, ModalResult, Parser};
use winnow_stream::{Location, Stream, StreamIsPartial};
use winnow_token::{any, literal, one_of, take_while};
use winnow_wrap::{LocatingSlice, Partial};

// Reads a whole input to its end: the value, or where the parser stopped.
fn read_whole<'w, I: StreamIsPartial + Compare<&'w str> + Drop>(
    alloc: Global,
    text: &'w str,
    input: I,
) -> Result<String, Fault>
where
    I::PartialState: Drop,
    I::Slice: Debug + Drop,
    requires { I.valid input }
{
    match Parser::<I, EmptyError>::parse(&literal(text), alloc, input) {
        Ok(Ok(taken)) => Ok(format!(in alloc; "Ok({taken:?})")?),
        Ok(Err(error)) => {
            let offset = error.offset();
            Ok(format!(in alloc; "Err({offset})")?)
        }
        Err(_) => Err(Fault::OutOfMemory),
    }
}

/// Answers `literal(text).parse()` on a text after which more may come.
pub fn whole(alloc: Global, text: &str, input: &str) -> Result<String, Fault> {
    read_whole(alloc, text, Partial::new(input))
}

// The first token with its place, and where the second and the third stand.
type Places = ((char, Range<usize>), Range<usize>);

fn read_places<I: StreamIsPartial + Location + Stream<Token = char>>(
    alloc: Global,
    input: &mut I,
) -> ModalResult<Places, EmptyError>
    requires valid { I.valid input.old }
    requires location { IsLocation I.location I.token_end I.token_start }
{
    let first = any().with_span();
    let others = (any(), any()).span();
    (first, others).parse_next(alloc, input)
}

/// Answers `(any().with_span(), (any(), any()).span())`.
pub fn places(alloc: Global, text: &str) -> Result<String, Fault> {
    let mut input = LocatingSlice::new(text);
    let places = read_places(alloc, &mut input).ok();
    Ok(format!(in alloc; "{places:?}")?)
}

// Reads a word of two letters or more, or a digit.
fn read_choice<I, E>(alloc: Global, input: &mut I) -> ModalResult<(), E>
where
    I: StreamIsPartial + Stream<Token = char>,
    I::Slice: Drop,
    E: ParserError<I> + AddContext<I, char>,
    requires { I.valid input.old }
{
    let word = take_while(2.., 'a'..='z').context('w').void();
    let digit = one_of('0'..='9').context('d').void();
    alt((word, digit)).context('c').parse_next(alloc, input)
}

// Returns the text of the error of the choice.
fn failure<'w, E: ParserError<&'w str> + AddContext<&'w str, char> + Debug + Drop>(
    alloc: Global,
    text: &'w str,
) -> Result<String, Fault> {
    let mut input = text;
    let answer: ModalResult<(), E> = read_choice(alloc, &mut input);
    match answer {
        Ok(()) => Ok(format!(in alloc; "Read")?),
        Err(Failure::Backtrack(error)) => Ok(format!(in alloc; "Backtrack({error:?})")?),
        Err(Failure::Cut(error)) => Ok(format!(in alloc; "Cut({error:?})")?),
        Err(Failure::Incomplete(needed)) => Ok(format!(in alloc; "Incomplete({needed:?})")?),
        Err(Failure::Refused(_)) => Err(Fault::OutOfMemory),
    }
}

/// Answers `word_or_digit::<E>()`: two letters or more, in the context `w`, or else a digit, in the
/// context `d`, and both in the context `c`.
pub fn failures(alloc: Global, name: &str, text: &str) -> Result<String, Fault> {
    match name {
        "word_or_digit::<ContextError>" => failure::<ContextError<char>>(alloc, text),
        "word_or_digit::<InputError>" => failure::<InputError<&str>>(alloc, text),
        _ => Err(Fault::NoSuchCall),
    }
}
