//! Errors of one's own, of which nothing is promised: `PlainError`, and `Plain`, which makes one an
//! error of parsers.

ghost use Rattle.std.specs.Prelude.{◌≡◌, true, None, Ok, ⊤};

use crate::{AddContext, FromExternalError, ParserError};
use std::alloc::{AllocError, Global};
use winnow_stream::{Needed, Stream};

/// An error of one's own, which a parser makes where it fails. [`Plain`] makes it the error of
/// parsers, so it needs no more than this one call. No contract says which error is made.
///
/// ```
/// impl<I> PlainError<I> for NumberError {
///     fn from_input(_alloc: Global, _input: &I) -> Self {
///         NumberError::Missing
///     }
/// }
/// ..
/// pub fn read_number(alloc: Global, input: &mut &str) -> ModalResult<u8, Plain<NumberError>> {
/// ```
///
/// An error whose calls have contracts implements [`ParserError`] itself.
pub trait PlainError<I>: Sized + Drop {
    /// Returns the error of a parser that failed at an input.
    fn from_input(alloc: Global, input: &I) -> Self;

    /// Returns the error of two alternatives that both failed, this one first: the other's, if it
    /// is not implemented.
    fn or(self, other: Self) -> Self {
        other
    }
}

/// An error of one's own that is made of the error of a function, as `try_map` meets one.
pub trait PlainFromExternal<I, X>: Sized {
    /// Returns the error of a parser whose function failed with `error`.
    fn from_external(alloc: Global, input: &I, error: X) -> Self;
}

/// An error of one's own as the error of parsers. Contexts that parsers add to it are dropped.
#[derive(Clone, Copy, Debug, PartialEq, Eq)]
pub struct Plain<E> {
    /// The error
    pub error: E,
}

impl<I: Stream, E: PlainError<I>> ParserError<I> for Plain<E> {
    type Inner = Self;

    ghost from_input_gives = { λ _ _. ⊤ };

    ghost assert_gives = { λ _ _. ⊤ };

    ghost incomplete_gives = { λ _ _ _. ⊤ };

    ghost append_gives = { λ e _ _ r. r ≡ e };

    ghost append_refusable = { ⊥ };

    ghost or_gives = { λ _ _ _. ⊤ };

    ghost or_refusable = { ⊥ };

    ghost backtracks = { λ _. true };

    ghost inner = { Ok };

    ghost needs = { λ _. None };

    fn from_input(alloc: Global, input: &I) -> Self {
        Plain {
            error: E::from_input(alloc, input),
        }
    }

    fn assert(alloc: Global, input: &I, _message: &'static str) -> Self {
        Plain {
            error: E::from_input(alloc, input),
        }
    }

    fn incomplete(alloc: Global, input: &I, _needed: Needed) -> Self {
        Plain {
            error: E::from_input(alloc, input),
        }
    }

    fn append(
        self,
        _alloc: Global,
        _input: &I,
        _token_start: &I::Checkpoint,
    ) -> Result<Self, AllocError> {
        Ok(self)
    }

    fn or(self, _alloc: Global, other: Self) -> Result<Self, AllocError> {
        Ok(Plain {
            error: self.error.or(other.error),
        })
    }

    fn is_backtrack(&self) -> bool {
        true
    }

    fn into_inner(self) -> Result<Self, Self> {
        Ok(self)
    }

    fn needed(&self) -> Option<Needed> {
        None
    }
}

impl<I: Stream, C: Drop, E> AddContext<I, C> for Plain<E> {
    ghost add_context_gives = { λ e _ _ _ r. r ≡ e };

    ghost add_context_refusable = { ⊥ };

    fn add_context(
        self,
        _alloc: Global,
        _input: &I,
        _token_start: &I::Checkpoint,
        _context: C,
    ) -> Result<Self, AllocError> {
        Ok(self)
    }
}

impl<I, X, E: PlainFromExternal<I, X>> FromExternalError<I, X> for Plain<E> {
    ghost from_external_gives = { λ _ _ _. ⊤ };

    fn from_external_error(alloc: Global, input: &I, error: X) -> Self {
        Plain {
            error: E::from_external(alloc, input, error),
        }
    }
}
