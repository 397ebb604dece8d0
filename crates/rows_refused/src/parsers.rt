//! Parsers that gather values, join errors, or add what was being read.

use crate::accumulators::Holds;
use crate::cases::{Case, tell};
use crate::items::{Item, TEXT};
use crate::trees::prints;
use std::alloc::{AllocError, Global};
use std::fmt::Display;
use winnow_ascii::escaped;
use winnow_combinator::{alt, empty, eof, fail, repeat, repeat_till, separated};
use winnow_error::{EmptyError, ParserError};
use winnow_error_context::{ContextError, StrContext};
use winnow_match::Compare;
use winnow_parser::{Failure, ModalResult, Parser};
use winnow_stream::{Stream, StreamIsPartial};
use winnow_token::any;
use winnow_tree::TreeError;

// Gathers the characters. When memory is refused, the parser gathers them when it is asked again
// where it began.
fn gather<I, E: Drop, A: Holds<char> + Drop, P: Parser<I, E, Output = A>>(
    alloc: Global,
    mut input: I,
    parser: &P,
) -> Result<bool, AllocError>
where
    I: StreamIsPartial + Drop,
    requires ready { P.ready parser.now }
    requires valid { I.valid input }
{
    let start = input.checkpoint();
    let mut answer = parser.parse_next(alloc, &mut input);
    let refused = matches!(answer, Err(Failure::Refused(_)));
    if refused {
        input.reset(&start);
        answer = parser.parse_next(alloc, &mut input);
    }
    match answer {
        Ok(all) => tell(
            refused,
            input.eof_offset() == 0 && all.holds_first(char::TOTAL),
        ),
        Err(_) => Ok(false),
    }
}

// Returns whether a whole input is read.
fn reads<I, E: ParserError<I>>(alloc: Global, input: I) -> Result<bool, AllocError>
where
    I: Stream<Token = char> + StreamIsPartial + Drop,
    I::PartialState: Drop,
    requires { I.valid input }
{
    let word = repeat::<_, String, _>(0.., any());
    match Parser::<I, E>::parse(&word, alloc, input)? {
        Ok(all) => Ok(Holds::<char>::holds_first(&all, char::TOTAL)),
        Err(_) => Ok(false),
    }
}

// The same. When memory is refused, the input is read when it is parsed again.
fn parse<I, E: ParserError<I>>(alloc: Global, input: I) -> Result<bool, AllocError>
where
    I: Stream<Token = char> + StreamIsPartial + Copy + Drop,
    I::PartialState: Drop,
    requires { I.valid input }
{
    match reads::<I, E>(alloc, input) {
        Ok(right) => Ok(right),
        Err(_) => tell(true, reads::<I, E>(alloc, input).unwrap_or(false)),
    }
}

// Gathers the characters of an input: by one parser, repeated, in a vector and in a text, by one up
// to a parser that ends them, by one with separators between them, and with escapes between them.
// Then reads it as a whole.
fn gather_all<I, E: ParserError<I>>(alloc: Global, input: I) -> [Result<bool, AllocError>; 6]
where
    I: Stream<Token = char> + StreamIsPartial + Compare<char> + Copy + Drop,
    I::Slice: Drop,
    I::PartialState: Drop,
    requires { I.valid input }
{
    let list = repeat::<_, Vec<char>, _>(0.., any());
    let text = repeat::<_, String, _>(0.., any());
    let till = repeat_till::<_, _, Vec<char>, _>(0.., any(), eof());
    let apart = separated::<_, _, Vec<char>, _>(0.., any(), empty());
    let spelled = escaped::<_, _, String>(any(), '%', any());
    [
        gather::<I, E, _, _>(alloc, input, &list),
        gather::<I, E, _, _>(alloc, input, &text),
        gather::<I, E, _, _>(alloc, input, &till),
        gather::<I, E, _, _>(alloc, input, &apart),
        gather::<I, E, _, _>(alloc, input, &spelled),
        parse::<I, E>(alloc, input),
    ]
}

// Two alternatives that fail, whose errors are joined. A refusal gives the errors up.
fn join<I: StreamIsPartial + Display + Copy + Drop>(
    alloc: Global,
    mut input: I,
    wanted: &str,
) -> Result<bool, AllocError>
    requires { I.valid input }
{
    let both = alt((fail::<()>(), fail::<()>()));
    let answer: ModalResult<(), TreeError<I, StrContext>> = both.parse_next(alloc, &mut input);
    match answer {
        Err(Failure::Backtrack(error)) => prints(alloc, &error, wanted),
        Err(Failure::Refused(refused)) => Err(refused),
        _ => Ok(false),
    }
}

// A parser that fails and adds what it was reading. A refusal gives the error up.
fn tell_context<I: StreamIsPartial + Drop>(alloc: Global, mut input: I) -> Result<bool, AllocError>
    requires { I.valid input }
{
    let told = fail::<()>().context('a');
    let answer: ModalResult<(), ContextError<char>> = told.parse_next(alloc, &mut input);
    match answer {
        Err(Failure::Backtrack(error)) => Ok(error.context().copied().eq(['a'])),
        Err(Failure::Refused(refused)) => Err(refused),
        _ => Ok(false),
    }
}

/// The cases of parsers.
pub fn cases(alloc: Global) -> [Case; 8] {
    let [list, text, till, apart, spelled, whole] = gather_all::<&str, EmptyError>(alloc, TEXT);
    let joined = "during one of:\n   at '12x'\n   at '12x'\n  0:  at '12x'\n";
    [
        ("repeat into a Vec", list),
        ("repeat into a String", text),
        ("repeat_till", till),
        ("separated", apart),
        ("escaped", spelled),
        ("parse", whole),
        ("alt", join(alloc, "12x", joined)),
        ("context", tell_context(alloc, "12x")),
    ]
}
