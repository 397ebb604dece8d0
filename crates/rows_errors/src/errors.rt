//! Questions about each type of error, made by nested words.
use crate::made::{TextStream, answer, made, texts};
use crate::printed::{is_debug, printed};
use rows::{Fault, Words};
use std::alloc::Global;
use std::fmt::Display;
use winnow_error::{
    AddContext, EmptyError, ErrMode, FromExternalError, FromRecoverableError, InputError,
    ParserError,
};
use winnow_error_context::{ContextError, StrContext};
use winnow_tree::TreeError;

// Returns whether a question is a format of a printed text.
fn is_print(question: &str) -> bool {
    question.starts_with('{') && !is_debug(question)
}

// Returns the printed text of the error that the words make.
fn print<I, E>(alloc: Global, format: &str, input: &Words, texts: &[I]) -> Result<String, Fault>
where
    I: TextStream,
    E: ParserError<I> + AddContext<I, StrContext> + Display,
    E: FromExternalError<I, String> + FromRecoverableError<I, E>,
{
    let error = made::<I, E>(alloc, input, texts)?.error()?;
    printed(alloc, format, &error)
}

/// Answers a question about an error that tells at most the input.
pub fn of_plain(
    alloc: Global,
    family: &str,
    question: &str,
    input: &Words,
) -> Result<String, Fault> {
    let texts = texts(alloc, input)?;
    let texts = texts.as_slice();
    match (family, is_print(question)) {
        ("InputError", true) => print::<&str, InputError<&str>>(alloc, question, input, texts),
        ("InputError", false) => answer::<&str, InputError<&str>>(alloc, question, input, texts),
        ("EmptyError", true) => print::<&str, EmptyError>(alloc, question, input, texts),
        ("EmptyError", false) => answer::<&str, EmptyError>(alloc, question, input, texts),
        (_, false) => answer::<&str, ()>(alloc, question, input, texts),
        _ => Err(Fault::NoSuchCall),
    }
}

/// Answers a question about an error that takes memory.
pub fn of_rich(
    alloc: Global,
    family: &str,
    question: &str,
    input: &Words,
) -> Result<String, Fault> {
    let texts = texts(alloc, input)?;
    let texts = texts.as_slice();
    match (family, is_print(question)) {
        ("ContextError", true) => print::<&str, ContextError<StrContext>>(
            alloc, question, input, texts,
        ),
        ("ContextError", false) => answer::<&str, ContextError<StrContext>>(
            alloc, question, input, texts,
        ),
        (_, false) => answer::<&str, TreeError<&str, StrContext>>(alloc, question, input, texts),
        _ => Err(Fault::NoSuchCall),
    }
}

/// Answers a question about an error in a mode.
pub fn of_modes(
    alloc: Global,
    family: &str,
    question: &str,
    input: &Words,
) -> Result<String, Fault> {
    let texts = texts(alloc, input)?;
    let texts = texts.as_slice();
    match (family, is_print(question)) {
        ("ErrMode<InputError>", true) => print::<&str, ErrMode<InputError<&str>>>(
            alloc, question, input, texts,
        ),
        ("ErrMode<InputError>", false) => {
            answer::<&str, ErrMode<InputError<&str>>>(alloc, question, input, texts)
        }
        (_, false) => answer::<&str, ErrMode<ContextError<StrContext>>>(
            alloc, question, input, texts,
        ),
        _ => Err(Fault::NoSuchCall),
    }
}
