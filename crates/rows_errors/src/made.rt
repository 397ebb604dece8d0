//! An error of any type, made by the nested calls that words write, as in
//! `or(from_input("ab"), append(from_input("b"), "b", "ab"))`.
use crate::parts::{Part, Parts, name};
use crate::printed::debugged;
use rows::{Fault, Word, Words};
use std::alloc::Global;
use std::fmt::Debug;
use winnow_error::{AddContext, FromExternalError, FromRecoverableError, ParserError, combine};
use winnow_error_context::{StrContext, StrContextValue};
use winnow_stream::Stream;

/// A stream that is a text. An error names the stream and no lifetime: so what a row makes of an
/// error is proved for every stream.
pub trait TextStream: Stream + Copy {
    /// Returns the stream itself, which is valid.
    fn checked(self) -> Self
        ensures { Self.valid result };

    /// Returns the text.
    fn text(&self) -> &str;
}

impl<'w> TextStream for &'w str {
    fn checked(self) -> Self {
        self
    }

    fn text(&self) -> &str {
        self
    }
}

/// Returns the text of each word, which is empty where the word is none.
pub fn texts<'w>(alloc: Global, input: &'w Words) -> Result<Vec<&'w str>, Fault> {
    let mut texts = Vec::new(alloc);
    for index in 0..input.len() {
        let text = input.text(index).unwrap_or("");
        if texts.push(text).is_err() {
            return Err(Fault::OutOfMemory);
        }
    }
    Ok(texts)
}

// Makes an error at an input.
fn make_at_input<I, E>(parts: &mut Parts<I, E>, call: &str) -> Result<E, Fault>
where
    I: TextStream,
    E: ParserError<I> + FromExternalError<I, String>,
{
    let (alloc, input) = (parts.alloc(), parts.text()?.checked());
    match call {
        "from_input" => Ok(E::from_input(alloc, &input)),
        "assert" => Ok(E::assert(alloc, &input, "misused")),
        "incomplete" => Ok(E::incomplete(alloc, &input, parts.needed()?)),
        _ => {
            let cause = String::from_str(alloc, parts.text()?.text())?;
            Ok(E::from_external_error(alloc, &input, cause))
        }
    }
}

// Makes an error of an error: the input where it failed comes after it, and then the input where
// its parser began.
fn make_of_error<I, E>(parts: &mut Parts<I, E>, call: &str) -> Result<E, Fault>
where
    I: TextStream,
    E: ParserError<I> + AddContext<I, StrContext> + FromRecoverableError<I, E>,
{
    let (alloc, error) = (parts.alloc(), parts.error()?);
    let input = parts.text()?.checked();
    let start = parts.text()?.checked().checkpoint();
    match call {
        "append" => Ok(error.append(alloc, &input, &start)?),
        "add_context" => {
            let context = parts.context()?;
            Ok(error.add_context(alloc, &input, &start, context)?)
        }
        _ => Ok(E::from_recoverable_error(&start, &start, &input, error)),
    }
}

// Makes the error of two alternatives.
fn make_or<I: Stream + Copy, E: ParserError<I>>(parts: &mut Parts<I, E>) -> Result<E, Fault> {
    let (first, second) = (parts.error()?, parts.error()?);
    Ok(first.or(parts.alloc(), second)?)
}

// Makes a context of a name, or a cause.
fn make_context<I: TextStream, E: Drop>(
    parts: &mut Parts<I, E>,
    call: &str,
) -> Result<Part<I, E>, Fault> {
    let text = parts.text()?;
    Ok(match call {
        "StringLiteral" => Part::Value(StrContextValue::StringLiteral(name(text.text())?)),
        "Description" => Part::Value(StrContextValue::Description(name(text.text())?)),
        "Label" => Part::Context(StrContext::Label(name(text.text())?)),
        _ => Part::Cause(text),
    })
}

// Makes a part that is no error.
fn make_part<I: TextStream, E: Drop>(parts: &mut Parts<I, E>, call: &str) -> Result<(), Fault> {
    match call {
        "StringLiteral" | "Description" | "Label" | "cause" => {
            let part = make_context(parts, call)?;
            parts.put(part)
        }
        call => parts.make(call),
    }
}

// Takes a word.
fn take<I, E>(parts: &mut Parts<I, E>, word: &Word, text: I) -> Result<(), Fault>
where
    I: TextStream,
    E: ParserError<I> + AddContext<I, StrContext>,
    E: FromExternalError<I, String> + FromRecoverableError<I, E>,
{
    let call = match word {
        Word::Text(_) => return parts.put(Part::Text(text)),
        Word::Char(sign) => return parts.put(Part::Sign(*sign)),
        Word::Bytes(_) => return Err(Fault::NoSuchCall),
        Word::Plain(call) => call.as_str(),
    };
    let error = match call {
        "from_input" | "assert" | "incomplete" | "from_external" => {
            make_at_input::<I, E>(parts, call)?
        }
        "append" | "add_context" | "recover" => make_of_error::<I, E>(parts, call)?,
        "or" => make_or::<I, E>(parts)?,
        call => return make_part(parts, call),
    };
    parts.put(Part::Error(error))
}

/// Returns the parts that the words make, of which the texts are given.
pub fn made<I, E>(alloc: Global, input: &Words, texts: &[I]) -> Result<Parts<I, E>, Fault>
where
    I: TextStream,
    E: ParserError<I> + AddContext<I, StrContext>,
    E: FromExternalError<I, String> + FromRecoverableError<I, E>,
{
    let mut parts = Parts::new(alloc);
    for index in (0..input.len()).rev() {
        let text = *texts.get(index).ok_or(Fault::NoSuchCall)?;
        take::<I, E>(&mut parts, input.word(index)?, text)?;
    }
    Ok(parts)
}

/// Answers a question about the error, or about the alternatives, that the words make.
pub fn answer<I, E>(
    alloc: Global,
    question: &str,
    input: &Words,
    texts: &[I],
) -> Result<String, Fault>
where
    I: TextStream,
    E: ParserError<I> + AddContext<I, StrContext> + Debug,
    E: FromExternalError<I, String> + FromRecoverableError<I, E>,
    E::Inner: Debug + Drop,
{
    let mut parts = made::<I, E>(alloc, input, texts)?;
    if question == "combine" {
        return debugged(alloc, "", &combine::<I, E>(alloc, parts.tree()?)?);
    }
    let error = parts.error()?;
    match question {
        "is_backtrack" => debugged(alloc, "", &error.is_backtrack()),
        "is_incomplete" => debugged(alloc, "", &error.is_incomplete()),
        "needed" => debugged(alloc, "", &error.needed()),
        "into_inner" => debugged(alloc, "", &error.into_inner()),
        format => debugged(alloc, format, &error),
    }
}
