//! `EmptyError`, which holds nothing.

ghost use Rattle.std.specs.Prelude.{◌≡◌, true, None, Ok, Some, refl, codes, ⊤};

use crate::{
    AddContext, AssociativeOr, ErrorConvert, FromExternalError, FromRecoverableError, ParserError,
};
use std::alloc::{AllocError, Global};
use std::fmt;
use winnow_stream::{Needed, Stream};

/// An error that holds nothing: it only says that a parser failed.
#[derive(Clone, Copy, PartialEq, Eq)]
pub struct EmptyError;

impl<I: Stream> ParserError<I> for EmptyError {
    type Inner = Self;

    ghost from_input_gives = { λ _ _. ⊤ };

    ghost assert_gives = { λ _ _. ⊤ };

    ghost incomplete_gives = { λ _ _ _. ⊤ };

    ghost append_gives = { λ e _ _ r. r ≡ e };

    ghost append_refusable = { ⊥ };

    ghost or_gives = { λ _ b r. r ≡ b };

    ghost or_refusable = { ⊥ };

    ghost backtracks = { λ _. true };

    ghost inner = { Ok };

    ghost needs = { λ _. None };

    fn from_input(_alloc: Global, _input: &I) -> Self {
        EmptyError
    }

    fn assert(_alloc: Global, _input: &I, _message: &'static str) -> Self {
        EmptyError
    }

    fn incomplete(_alloc: Global, _input: &I, _needed: Needed) -> Self {
        EmptyError
    }

    fn append(
        self,
        _alloc: Global,
        _input: &I,
        _token_start: &I::Checkpoint,
    ) -> Result<Self, AllocError> {
        Ok(self)
    }

    fn or(self, _alloc: Global, other: Self) -> Result<Self, AllocError> {
        Ok(other)
    }

    fn is_backtrack(&self) -> bool {
        true
    }

    fn into_inner(self) -> Result<Self, Self> {
        Ok(self)
    }

    fn needed(&self) -> Option<Needed> {
        None
    }
}

impl<I: Stream> AssociativeOr<I> for EmptyError {
    ghost joined = { λ _ b. b };

    ghost or_gives_joined = { λ _ _ _ e. e };

    ghost or_never_refused = { λ never. never };

    ghost joined_associative = { λ _ _ _. refl };
}

impl<I: Stream, C: Drop> AddContext<I, C> for EmptyError {
    ghost add_context_gives = { λ e _ _ _ r. r ≡ e };

    ghost add_context_refusable = { ⊥ };

    fn add_context(
        self,
        _alloc: Global,
        _input: &I,
        _token_start: &I::Checkpoint,
        _context: C,
    ) -> Result<Self, AllocError> {
        Ok(self)
    }
}

impl<I: Stream> FromRecoverableError<I, Self> for EmptyError {
    ghost recovered = { λ _ _ _ e. e };

    fn from_recoverable_error(
        _token_start: &I::Checkpoint,
        _err_start: &I::Checkpoint,
        _input: &I,
        e: Self,
    ) -> Self {
        e
    }
}

impl<I, E: Drop> FromExternalError<I, E> for EmptyError {
    ghost from_external_gives = { λ _ _ _. ⊤ };

    fn from_external_error(_alloc: Global, _input: &I, _e: E) -> Self {
        EmptyError
    }
}

impl ErrorConvert<Self> for EmptyError {
    ghost convert_gives = { λ e r. r ≡ e };

    ghost convert_refusable = { ⊥ };

    fn convert(self, _alloc: Global) -> Result<Self, AllocError> {
        Ok(self)
    }
}

/// Prints what a derived `Debug` would print.
impl fmt::Debug for EmptyError {
    ghost debug_output = { λ _. Some (codes "EmptyError") };

    fn fmt<W: fmt::Write>(&self, f: &mut fmt::Formatter<W>) -> fmt::Result {
        f.write_str("EmptyError")
    }
}

impl fmt::Display for EmptyError {
    ghost output = { λ _. Some (codes "failed to parse") };

    ghost styled_output = { λ _ _. Some (codes "failed to parse") };

    fn fmt<W: fmt::Write>(&self, f: &mut fmt::Formatter<W>) -> fmt::Result {
        f.write_str("failed to parse")
    }
}
