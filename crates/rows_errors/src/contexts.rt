//! Errors with the contexts that words list in the order in which they are added, after a cause if
//! there is one: `cause("bad") Label("number") Expected(CharLiteral('x'))`.
use crate::made::{made, texts};
use crate::parts::Parts;
use crate::printed::{debugged, shown};
use rows::{Fault, Words};
use std::alloc::{AllocError, Global};
use winnow_error::{EmptyError, FromExternalError};
use winnow_error_context::{ContextError, StrContext, StrContextValue};

type Told = ContextError<StrContext>;

// Returns an error of that cause.
fn caused_by(alloc: Global, cause: &str) -> Result<Told, AllocError> {
    let cause = String::from_str(alloc, cause)?;
    Ok(<Told as FromExternalError<&str, String>>::from_external_error(alloc, &"", cause))
}

// Returns the error that the parts list.
fn listed(alloc: Global, mut parts: Parts<&str, EmptyError>, count: usize) -> Result<Told, Fault> {
    let mut error = Told::new(alloc);
    for _ in 0..count {
        if parts.is_empty() {
            return Ok(error);
        }
        match parts.context_or_cause()? {
            Ok(context) => error.push(context)?,
            Err(cause) => error = caused_by(alloc, cause)?,
        }
    }
    Ok(error)
}

// Returns what an equal error and one with a further context are.
fn compared(alloc: Global, error: &Told) -> Result<String, AllocError> {
    let mut more = error.clone()?;
    let is_same = more == *error;
    more.push(StrContext::Label("more"))?;
    format!(in alloc; "({is_same}, {})", more == *error)
}

// Returns the error with the contexts of its own once more, all at once.
fn extended(alloc: Global, error: &Told) -> Result<String, AllocError> {
    let mut twice = error.clone()?;
    twice.extend(error.context().copied())?;
    format!(in alloc; "{twice:?}")
}

/// Answers a question about an error with contexts.
pub fn answer(alloc: Global, question: &str, input: &Words) -> Result<String, Fault> {
    let texts = texts(alloc, input)?;
    let parts = made::<&str, EmptyError>(alloc, input, texts.as_slice())?;
    let error = listed(alloc, parts, input.len())?;
    match question {
        "cause" => Ok(format!(in alloc; "{:?}", error.cause())?),
        "count" => Ok(format!(in alloc; "{}", error.context().count())?),
        "first" => Ok(format!(in alloc; "{:?}", error.context().next())?),
        "context" => debugged(alloc, "", &error.context()),
        "compared" => Ok(compared(alloc, &error)?),
        "extend" => Ok(extended(alloc, &error)?),
        format => shown(alloc, format, &error),
    }
}

// Returns a value that is made of a character or of a text, whichever the word is.
fn converted(input: &Words) -> Result<StrContextValue, Fault> {
    match input.sign(0) {
        Ok(sign) => Ok(sign.into()),
        Err(_) => match input.text(0)? {
            "x" => Ok("x".into()),
            _ => Err(Fault::NoSuchCall),
        },
    }
}

/// Answers a question about a context, or about a value that was expected.
pub fn alone(alloc: Global, family: &str, question: &str, input: &Words) -> Result<String, Fault> {
    if question == "from" {
        return debugged(alloc, "", &converted(input)?);
    }
    let texts = texts(alloc, input)?;
    let mut parts = made::<&str, EmptyError>(alloc, input, texts.as_slice())?;
    if family == "StrContext" {
        shown(alloc, question, &parts.context()?)
    } else {
        shown(alloc, question, &parts.value()?)
    }
}
