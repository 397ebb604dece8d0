//! `Missing`, the error of a parser with its place, and `Damage`, the record of an item that was
//! skipped.

ghost use Rattle.std.specs.Prelude.{◌≡◌, true, None, Ok};

use std::alloc::{AllocError, Global};
use winnow_error::{FromRecoverableError, ParserError};
use winnow_stream::{Location, Needed, Stream};

/// What was wanted is missing at this place.
#[derive(Clone, Copy, Debug, PartialEq, Eq)]
pub struct Missing {
    /// The place in the input
    pub at: usize,
}

/// An item was damaged at a place, and skipped up to another.
#[derive(Clone, Copy, Debug, PartialEq, Eq)]
pub struct Damage {
    /// Where the item stops being one
    pub at: usize,
    /// Where reading went on
    pub end: usize,
}

impl<I: Stream + Location> ParserError<I> for Missing {
    type Inner = Self;

    ghost from_input_gives = { λ input e. e.at ≡ I.token_start input };

    ghost assert_gives = { λ input e. e.at ≡ I.token_start input };

    ghost incomplete_gives = { λ input _ e. e.at ≡ I.token_start input };

    ghost append_gives = { λ e _ _ r. r ≡ e };

    ghost append_refusable = { ⊥ };

    ghost or_gives = { λ _ b r. r ≡ b };

    ghost or_refusable = { ⊥ };

    ghost backtracks = { λ _. true };

    ghost inner = { Ok };

    ghost needs = { λ _. None };

    fn from_input(_alloc: Global, input: &I) -> Self {
        Missing {
            at: input.current_token_start(),
        }
    }

    fn assert(_alloc: Global, input: &I, _message: &'static str) -> Self {
        Missing {
            at: input.current_token_start(),
        }
    }

    fn incomplete(_alloc: Global, input: &I, _needed: Needed) -> Self {
        Missing {
            at: input.current_token_start(),
        }
    }

    fn append(
        self,
        _alloc: Global,
        _input: &I,
        _token_start: &I::Checkpoint,
    ) -> Result<Self, AllocError> {
        Ok(self)
    }

    fn or(self, _alloc: Global, other: Self) -> Result<Self, AllocError> {
        Ok(other)
    }

    fn is_backtrack(&self) -> bool {
        true
    }

    fn into_inner(self) -> Result<Self, Self> {
        Ok(self)
    }

    fn needed(&self) -> Option<Needed> {
        None
    }
}

impl<I: Stream> FromRecoverableError<I, Self> for Missing {
    ghost recovered = { λ _ _ _ e. e };

    fn from_recoverable_error(
        _token_start: &I::Checkpoint,
        _err_start: &I::Checkpoint,
        _input: &I,
        e: Self,
    ) -> Self {
        e
    }
}

impl<I: Stream + Location> FromRecoverableError<I, Missing> for Damage {
    ghost recovered = { λ _ _ input e. record { at = e.at; end = I.token_start input } };

    fn from_recoverable_error(
        _token_start: &I::Checkpoint,
        _err_start: &I::Checkpoint,
        input: &I,
        e: Missing,
    ) -> Self {
        Damage {
            at: e.at,
            end: input.current_token_start(),
        }
    }
}
