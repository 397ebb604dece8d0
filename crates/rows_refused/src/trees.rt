//! Trees of errors, built, printed and converted while memory may be refused.

use crate::alternatives::both;
use crate::cases::tell;
use std::alloc::{AllocError, Global};
use std::fmt::Display;
use winnow_error::ErrMode::Backtrack;
use winnow_error::{AddContext, ErrMode, ErrorConvert, OrTree, ParserError};
use winnow_error_context::StrContext;
use winnow_error_context::StrContext::Label;
use winnow_stream::Stream;
use winnow_tree::{TreeError, TreeErrorBase, TreeErrorContext, combine_trees};
use winnow_views::Bits;

type Tree<I> = TreeError<I, StrContext>;

const INPUT: &str = "12x";

// Returns an error with the frame of a parser and a context.
fn stacked<I: Stream + Copy>(alloc: Global, input: I) -> Result<Tree<I>, AllocError>
    requires { I.valid input }
{
    let start = input.checkpoint();
    let error = <Tree<I> as ParserError<I>>::from_input(alloc, &input);
    let error = <Tree<I> as ParserError<I>>::append(error, alloc, &input, &start)?;
    error.add_context(alloc, &input, &start, Label("a"))
}

// Returns the error of two alternatives, the second of which is stacked.
fn alternatives<I: Stream + Copy>(alloc: Global, input: I) -> Result<Tree<I>, AllocError>
    requires { I.valid input }
{
    let second = stacked(alloc, input)?;
    let first = <Tree<I> as ParserError<I>>::from_input(alloc, &input);
    <Tree<I> as ParserError<I>>::or(first, alloc, second)
}

const ALTERNATIVES: &str =
    "during one of:\n   at '12x'\n   at '12x'\n    0:  at '12x'\n    1: invalid a at '12x'\n";

/// Returns whether the error has this text.
pub fn prints<I: Display>(
    alloc: Global,
    error: &TreeError<I, StrContext>,
    wanted: &str,
) -> Result<bool, AllocError> {
    let text = error.text(alloc)?;
    Ok(text.as_str() == wanted)
}

/// Frames that are added to an error. A refusal gives the error up.
pub fn append(alloc: Global) -> Result<bool, AllocError> {
    let error = stacked(alloc, INPUT)?;
    prints(
        alloc,
        &error,
        " at '12x'\n  0:  at '12x'\n  1: invalid a at '12x'\n",
    )
}

/// The error of two alternatives. A refusal gives it up.
pub fn or(alloc: Global) -> Result<bool, AllocError> {
    let error = alternatives(alloc, INPUT)?;
    prints(alloc, &error, ALTERNATIVES)
}

/// The text of an error. When memory is refused, the error is as it was, and has the same text.
pub fn text(alloc: Global) -> Result<bool, AllocError> {
    let error = alternatives(alloc, INPUT)?;
    match prints(alloc, &error, ALTERNATIVES) {
        Ok(right) => Ok(right),
        Err(_) => tell(true, prints(alloc, &error, ALTERNATIVES).unwrap_or(false)),
    }
}

// Returns whether the parts of an error, the frame and the context, have these texts.
fn parts_print<I: Display>(
    alloc: Global,
    base: &TreeErrorBase<I>,
    context: &TreeErrorContext<I, StrContext>,
) -> Result<bool, AllocError> {
    let base = base.text(alloc)?;
    let context = context.text(alloc)?;
    Ok(base.as_str() == " at '12x'" && context.as_str() == "invalid a at '12x'")
}

/// The parts of an error with copies of their inputs, and their texts. When the memory for a text
/// is refused, the parts are as they were.
pub fn parts(alloc: Global) -> Result<bool, AllocError> {
    let base = TreeErrorBase {
        input: INPUT,
        cause: None,
    };
    let context = TreeErrorContext {
        input: INPUT,
        context: Label("a"),
    };
    let base = base.into_owned(alloc)?;
    let context = context.into_owned(alloc)?;
    match parts_print(alloc, &base, &context) {
        Ok(right) => Ok(right),
        Err(_) => tell(true, parts_print(alloc, &base, &context).unwrap_or(false)),
    }
}

/// An error with copies of its inputs, and then with their lengths.
pub fn map_input(alloc: Global) -> Result<bool, AllocError> {
    let owned = stacked(alloc, INPUT)?.into_owned(alloc)?;
    let error = owned.map_input(alloc, |text: String| text.len())?;
    prints(
        alloc,
        &error,
        " at '3'\n  0:  at '3'\n  1: invalid a at '3'\n",
    )
}

/// An error at bytes, converted to their bits and back, and then with their lengths.
pub fn convert(alloc: Global) -> Result<bool, AllocError> {
    let input: &[u8] = b"12x";
    let bits: Tree<Bits<&[u8]>> = stacked(alloc, input)?.convert(alloc)?;
    let bytes: Tree<&[u8]> = bits.convert(alloc)?;
    let error = bytes.map_input(alloc, |bytes: &[u8]| bytes.len())?;
    prints(
        alloc,
        &error,
        " at '3'\n  0:  at '3'\n  1: invalid a at '3'\n",
    )
}

// Returns an error beside a stacked one.
fn beside<I: Stream + Copy>(alloc: Global, input: I) -> Result<OrTree<ErrMode<Tree<I>>>, AllocError>
    requires { I.valid input }
{
    let second = OrTree::One(Backtrack(stacked(alloc, input)?));
    let first = <Tree<I> as ParserError<I>>::from_input(alloc, &input);
    both(alloc, Ok(OrTree::One(Backtrack(first))), Ok(second))
}

/// Two alternatives, bracketed.
pub fn combine(alloc: Global) -> Result<bool, AllocError> {
    match combine_trees(alloc, beside(alloc, INPUT)?)? {
        Backtrack(error) => prints(alloc, &error, ALTERNATIVES),
        _ => Ok(false),
    }
}
