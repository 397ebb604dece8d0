//! The errors of parses that fail at a place, and groups of alternatives.
use std::alloc::{AllocError, Global};
use winnow_error::{ErrMode, OrTree, ParserError};
use winnow_error_parse::ParseError;
use winnow_stream::Stream;

/// Returns the error of a parse that fails after the front of width `offset`, or at the start where
/// no front has that width.
pub fn fail_at<I: Stream, E: ParserError<I>>(
    alloc: Global,
    mut input: I,
    offset: usize,
) -> ParseError<I, E>
where
    I::Slice: Drop,
    requires { I.valid input }
{
    let start = input.checkpoint();
    if input.is_offset(offset) {
        let _ = input.next_slice(offset);
    }
    let inner = E::from_input(alloc, &input);
    ParseError::new(input, start, inner)
}

/// Returns that error of a parse that fails after the front of width `offset`, or at the start if
/// no front has that width.
pub fn fail_with<I: Stream, E: ParserError<I>>(
    mut input: I,
    offset: usize,
    inner: E,
) -> ParseError<I, E>
where
    I::Slice: Drop,
    requires { I.valid input }
{
    let start = input.checkpoint();
    if input.is_offset(offset) {
        let _ = input.next_slice(offset);
    }
    ParseError::new(input, start, inner)
}

/// Returns two groups of alternatives, joined.
pub fn joined<E: Drop>(
    alloc: Global,
    first: OrTree<ErrMode<E>>,
    second: OrTree<ErrMode<E>>,
) -> Result<OrTree<ErrMode<E>>, AllocError> {
    let first = Box::new(alloc, first)?;
    let second = Box::new(alloc, second)?;
    Ok(OrTree::Both(first, second))
}
