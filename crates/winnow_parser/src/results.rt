//! `ModalResult`, the result of a parser, and `WholeResult`, that of a parse of a whole input.

use std::alloc::AllocError;
use winnow_error::Failure;

/// What a parser answers: a value, or why there is none.
pub type ModalResult<O, E> = Result<O, Failure<E>>;

/// What comes of a whole input: a value, or the inner error, which says what is wrong with the
/// input. The outer error is refused memory, after which nothing is known of the input.
pub type WholeResult<O, E> = Result<Result<O, E>, AllocError>;
