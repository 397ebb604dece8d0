//! Errors of alternatives, appended and combined while memory may be refused.

ghost use Rattle.std.specs.Prelude.{true, None, Ok, ⊤};

use std::alloc::{AllocError, Global};
use winnow_error::ErrMode::Backtrack;
use winnow_error::{ErrMode, OrTree, ParserError, combine};
use winnow_stream::{Needed, Stream};

/// The widths that were left where each alternative failed. `append` and `or` add to them.
#[derive(Debug, Drop)]
struct Failures(Vec<usize>);

impl<I: Stream> ParserError<I> for Failures {
    type Inner = Self;

    ghost from_input_gives = { λ _ _. ⊤ };

    ghost assert_gives = { λ _ _. ⊤ };

    ghost incomplete_gives = { λ _ _ _. ⊤ };

    ghost append_gives = { λ _ _ _ _. ⊤ };

    ghost append_refusable = { ⊤ };

    ghost or_gives = { λ _ _ _. ⊤ };

    ghost or_refusable = { ⊤ };

    ghost backtracks = { λ _. true };

    ghost inner = { Ok };

    ghost needs = { λ _. None };

    fn from_input(alloc: Global, _input: &I) -> Self {
        Failures(Vec::new(alloc))
    }

    fn assert(alloc: Global, _input: &I, _message: &'static str) -> Self {
        Failures(Vec::new(alloc))
    }

    fn incomplete(alloc: Global, _input: &I, _needed: Needed) -> Self {
        Failures(Vec::new(alloc))
    }

    fn append(
        mut self,
        _alloc: Global,
        input: &I,
        _token_start: &I::Checkpoint,
    ) -> Result<Self, AllocError> {
        self.0.push(input.eof_offset())?;
        Ok(self)
    }

    fn or(mut self, _alloc: Global, other: Self) -> Result<Self, AllocError> {
        self.0.extend(other.0)?;
        Ok(self)
    }

    fn is_backtrack(&self) -> bool {
        true
    }

    fn into_inner(self) -> Result<Self, Self> {
        Ok(self)
    }

    fn needed(&self) -> Option<Needed> {
        None
    }
}

// Returns the error of a parser that failed at an input, and of another that failed because of it.
fn one<I: Stream + Copy, E: ParserError<I>>(
    alloc: Global,
    input: I,
) -> Result<OrTree<E>, AllocError>
    requires { I.valid input }
{
    let start = input.checkpoint();
    let error = E::from_input(alloc, &input).append(alloc, &input, &start)?;
    Ok(OrTree::One(error))
}

/// Returns the errors of two alternatives.
pub fn both<E: Drop>(
    alloc: Global,
    first: Result<OrTree<E>, AllocError>,
    second: Result<OrTree<E>, AllocError>,
) -> Result<OrTree<E>, AllocError> {
    let first = Box::new(alloc, first?)?;
    let second = Box::new(alloc, second?)?;
    Ok(OrTree::Both(first, second))
}

// Combines three errors, of parsers that failed at these inputs.
fn combined<I: Stream + Copy, E: ParserError<I>>(
    alloc: Global,
    first: I,
    second: I,
    third: I,
) -> Result<ErrMode<E>, AllocError>
    requires first { I.valid first }
    requires second { I.valid second }
    requires third { I.valid third }
{
    let later = both(alloc, one(alloc, second), one(alloc, third));
    combine::<I, E>(alloc, both(alloc, one(alloc, first), later)?)
}

/// Errors that are appended to and combined. A refusal gives them up.
pub fn combine_three(alloc: Global) -> Result<bool, AllocError> {
    match combined::<&'static str, Failures>(alloc, "12x", "2x", "x")? {
        Backtrack(error) => Ok(error.0.as_slice() == [3, 2, 1].as_slice()),
        _ => Ok(false),
    }
}
