//! Errors as a user would write them.
ghost use Rattle.std.specs.Prelude.{◌≡◌, ◌+◌, ◌-◌, true, None, Ok, max, ⊤};
ghost use Rattle.std.proofs.Common.{ap};
ghost use Rattle.law_errors.specs.Furthest.{max-associative};

use std::alloc::{AllocError, Global};
use winnow_error::{AssociativeOr, ErrorConvert, ParserError};
use winnow_error_context::{ContextError, StrContext};
use winnow_stream::{Needed, Stream};

/// How far a parser came. Of two alternatives the one that came further counts, so its `or` is
/// associative.
#[derive(Clone, Copy, Debug, PartialEq, Eq)]
pub struct Furthest(pub u32);

impl<I: Stream> ParserError<I> for Furthest {
    type Inner = Self;

    ghost from_input_gives = { λ _ e. e.0 ≡ 0 };

    ghost assert_gives = { λ _ e. e.0 ≡ 0 };

    ghost incomplete_gives = { λ _ _ e. e.0 ≡ 0 };

    ghost append_gives = { λ e _ _ r. r ≡ e };

    ghost append_refusable = { ⊥ };

    ghost or_gives = { λ a b r. r.0 ≡ max a.0 b.0 };

    ghost or_refusable = { ⊥ };

    ghost backtracks = { λ _. true };

    ghost inner = { Ok };

    ghost needs = { λ _. None };

    fn from_input(_alloc: Global, _input: &I) -> Self {
        Furthest(0)
    }

    fn assert(_alloc: Global, _input: &I, _message: &'static str) -> Self {
        Furthest(0)
    }

    fn incomplete(_alloc: Global, _input: &I, _needed: Needed) -> Self {
        Furthest(0)
    }

    fn append(
        self,
        _alloc: Global,
        _input: &I,
        _token_start: &I::Checkpoint,
    ) -> Result<Self, AllocError> {
        Ok(self)
    }

    fn or(self, _alloc: Global, other: Self) -> Result<Self, AllocError> {
        Ok(Furthest(self.0.max(other.0)))
    }

    fn is_backtrack(&self) -> bool {
        true
    }

    fn into_inner(self) -> Result<Self, Self> {
        Ok(self)
    }

    fn needed(&self) -> Option<Needed> {
        None
    }
}

impl<I: Stream> AssociativeOr<I> for Furthest {
    ghost joined = { λ a b. record { 0 = max a.0 b.0 } };

    ghost or_gives_joined = { λ _ _ _ e. ap (λ n. record { 0 = n }) e };

    ghost or_never_refused = { λ never. never };

    ghost joined_associative = { λ a b c.
        ap (λ n. record { 0 = n }) (max-associative a.0 b.0 c.0) };
}

/// The distance between two parsers: an error whose `or` is not associative, so that brackets
/// matter.
#[derive(Clone, Copy, Debug, PartialEq, Eq)]
pub struct Apart(pub u32);

impl<I: Stream> ParserError<I> for Apart {
    type Inner = Self;

    ghost from_input_gives = { λ _ e. e.0 ≡ 0 };

    ghost assert_gives = { λ _ e. e.0 ≡ 0 };

    ghost incomplete_gives = { λ _ _ e. e.0 ≡ 0 };

    ghost append_gives = { λ e _ _ r. r ≡ e };

    ghost append_refusable = { ⊥ };

    ghost or_gives = { λ a b r. r.0 ≡ (a.0 - b.0) + (b.0 - a.0) };

    ghost or_refusable = { ⊥ };

    ghost backtracks = { λ _. true };

    ghost inner = { Ok };

    ghost needs = { λ _. None };

    fn from_input(_alloc: Global, _input: &I) -> Self {
        Apart(0)
    }

    fn assert(_alloc: Global, _input: &I, _message: &'static str) -> Self {
        Apart(0)
    }

    fn incomplete(_alloc: Global, _input: &I, _needed: Needed) -> Self {
        Apart(0)
    }

    fn append(
        self,
        _alloc: Global,
        _input: &I,
        _token_start: &I::Checkpoint,
    ) -> Result<Self, AllocError> {
        Ok(self)
    }

    fn or(self, _alloc: Global, other: Self) -> Result<Self, AllocError> {
        Ok(Apart(self.0.max(other.0) - self.0.min(other.0)))
    }

    fn is_backtrack(&self) -> bool {
        true
    }

    fn into_inner(self) -> Result<Self, Self> {
        Ok(self)
    }

    fn needed(&self) -> Option<Needed> {
        None
    }
}

/// An error whose conversion makes a label and takes memory.
#[derive(Clone, Copy, Debug, PartialEq, Eq)]
pub struct Labelled(pub &'static str);

impl ErrorConvert<ContextError<StrContext>> for Labelled {
    ghost use Rattle.winnow_error_context.specs.declared.str_context.StrContext.TheVariants.{Label};
    ghost use Rattle.winnow_error_context.specs.Explanation.{unexplained, pushed};

    ghost convert_gives = { λ e r. r ≡ pushed unexplained (Label e.0) };

    ghost convert_refusable = { ⊤ };

    fn convert(self, alloc: Global) -> Result<ContextError<StrContext>, AllocError> {
        let mut error = ContextError::new(alloc);
        error.push(StrContext::Label(self.0))?;
        Ok(error)
    }
}
