//! Errors with contexts, pushed, extended, cloned and converted while memory may be refused.

ghost use Rattle.std.specs.Prelude.{◌≡◌, ⊤};
ghost use Rattle.winnow_error_context.specs.Explanation.{pushed, unexplained};
ghost use Rattle.winnow_error_context.specs.declared.str_context.StrContext.TheVariants.{Label};

use crate::cases::tell;
use std::alloc::{AllocError, Global};
use winnow_error::{AddContext, ErrMode, ErrorConvert, InputError};
use winnow_error_context::StrContext::Label;
use winnow_error_context::{ContextError, StrContext};
use winnow_stream::Stream;

type Told = ContextError<StrContext>;

// More contexts than fit the room of a first push.
const LABELS: [&str; 6] = ["a", "b", "c", "d", "e", "f"];

// Returns whether the context is the label with this number.
fn is_label(context: &StrContext, number: usize) -> bool {
    match (context, LABELS.get(number)) {
        (Label(told), Some(label)) => *told == *label,
        _ => false,
    }
}

// Returns whether the contexts are the first `count` labels, in order.
fn tells_first(error: &Told, count: usize) -> bool {
    let mut told: usize = 0;
    for context in error.context() {
        if !is_label(context, told) {
            return false;
        }
        told = told.saturating_add(1);
    }
    told == count
}

fn push_three(error: &mut Told) -> Result<(), AllocError> {
    for label in LABELS.iter().take(3) {
        error.push(Label(*label))?;
    }
    Ok(())
}

// Returns an error with the first three labels.
fn made(alloc: Global) -> Result<Told, AllocError> {
    let mut error = Told::new(alloc);
    push_three(&mut error)?;
    Ok(error)
}

/// Pushes, of which some grow. When memory is refused, the contexts are those from before, and the
/// same push can be made again.
pub fn push(alloc: Global) -> Result<bool, AllocError> {
    let mut error = Told::new(alloc);
    let mut refused = false;
    for (count, label) in LABELS.iter().enumerate() {
        if error.push(Label(*label)).is_ok() {
            continue;
        }
        refused = true;
        if !tells_first(&error, count) || error.push(Label(*label)).is_err() {
            return Ok(false);
        }
    }
    tell(refused, tells_first(&error, LABELS.len()))
}

// Returns a label as a context.
fn context(index: usize) -> Option<StrContext> {
    match LABELS.get(index) {
        Some(label) => Some(Label(*label)),
        None => None,
    }
}

// Returns whether the contexts are the first `count` labels, and then the last three.
fn tells_then_last(error: &Told, count: usize) -> bool {
    let mut told: usize = 0;
    for context in error.context() {
        let index = if told < count {
            told
        } else {
            (told - count).saturating_add(3)
        };
        if !is_label(context, index) {
            return false;
        }
        told = told.saturating_add(1);
    }
    told == count.saturating_add(3)
}

/// Appends three contexts to three others, from an iterator that cannot say how many it has, so
/// that the room grows in the middle. When memory is refused, the contexts from before stay, and
/// those that came before the refused one. The same three can then be appended.
pub fn extend(alloc: Global) -> Result<bool, AllocError> {
    let mut error = made(alloc)?;
    let mut came = 3..LABELS.len();
    if error.extend(came.by_ref().filter_map(context)).is_ok() {
        return Ok(tells_first(&error, LABELS.len()));
    }
    let count = error.context().count();
    if came.start.saturating_sub(count) != 1 || !tells_first(&error, count) {
        return Ok(false);
    }
    let again = error.extend((3..LABELS.len()).filter_map(context));
    tell(true, again.is_ok() && tells_then_last(&error, count))
}

// Returns whether a clone has the first three labels.
fn clones(error: &Told) -> Result<bool, AllocError> {
    Ok(tells_first(&error.clone()?, 3))
}

/// A clone. When memory is refused, the source is as it was, and can be cloned again.
pub fn clone(alloc: Global) -> Result<bool, AllocError> {
    let error = made(alloc)?;
    match clones(&error) {
        Ok(right) => Ok(right && tells_first(&error, 3)),
        Err(_) if !tells_first(&error, 3) => Ok(false),
        Err(_) => tell(true, clones(&error).unwrap_or(false)),
    }
}

/// A context that is added to an error. A refusal gives the error up.
pub fn add_context(alloc: Global) -> Result<bool, AllocError> {
    let input = "12x";
    let start = input.checkpoint();
    let error = ErrMode::Cut(Told::new(alloc)).add_context(alloc, &input, &start, Label("a"))?;
    match error {
        ErrMode::Cut(error) => Ok(tells_first(&error, 1)),
        _ => Ok(false),
    }
}

/// The input's bytes and its text, copied.
pub fn into_owned(alloc: Global) -> Result<bool, AllocError> {
    let bytes = InputError::at(b"12x".as_slice()).into_owned(alloc)?;
    let text = InputError::at("12x").into_owned(alloc)?;
    Ok(bytes.input.as_slice() == b"12x".as_slice() && text.input.as_str() == "12x")
}

/// An error whose conversion makes a label and takes memory.
#[derive(Clone, Copy, Debug)]
struct Labelled(&'static str);

impl ErrorConvert<Told> for Labelled {
    ghost convert_gives = { λ e r. r ≡ pushed unexplained (Label e.0) };

    ghost convert_refusable = { ⊤ };

    fn convert(self, alloc: Global) -> Result<Told, AllocError> {
        let mut error = Told::new(alloc);
        error.push(Label(self.0))?;
        Ok(error)
    }
}

/// An error converted under its mode.
pub fn convert(alloc: Global) -> Result<bool, AllocError> {
    match ErrMode::Backtrack(Labelled("a")).convert(alloc)? {
        ErrMode::Backtrack(error) => Ok(tells_first(&error, 1)),
        _ => Ok(false),
    }
}
