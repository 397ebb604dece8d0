//! `InputError`, which holds the input at which a parser failed.

ghost use Rattle.std.specs.Prelude.{◌≡◌, ◌++◌, true, None, Ok, Some, refl, codes, IfOk};
ghost use Rattle.std.specs.Prelude.{string_bytes};
ghost use Rattle.std.specs.Fmt.{◌++?◌};

use crate::{
    AddContext, AssociativeOr, FromExternalError, FromRecoverableError, ParserError, write_bare,
};
use std::alloc::{AllocError, Global};
use std::fmt;
use winnow_stream::{Needed, Stream};

/// An error that holds only the input at which the parser failed.
#[derive(Clone, Copy, PartialEq, Eq, Drop)]
pub struct InputError<I> {
    /// The input as it stood where the parser failed
    pub input: I,
}

impl<I> InputError<I> {
    /// Returns the error at an input.
    pub fn at(input: I) -> Self
        ensures { result ≡ record { input = input } }
    {
        InputError { input }
    }

    /// Returns the error with the input that `op` makes of the old one.
    pub fn map_input<I2, F: Fn(I) -> I2>(self, op: F) -> InputError<I2>
    where
        F: Drop,
        requires { F.pre op self.input }
        ensures { F.post op self.input result.input }
    {
        InputError {
            input: op(self.input),
        }
    }
}

impl InputError<&[u8]> {
    /// Returns the error with a copy of the bytes.
    pub fn into_owned(self, alloc: Global) -> Result<InputError<Vec<u8>>, AllocError>
        ensures { IfOk result (λ r. r.input.items ≡ self.entry.input.now) }
    {
        Ok(InputError {
            input: self.input.to_vec(alloc)?,
        })
    }
}

impl InputError<&str> {
    /// Returns the error with a copy of the text.
    pub fn into_owned(self, alloc: Global) -> Result<InputError<String>, AllocError>
        ensures { IfOk result (λ r. string_bytes r.input ≡ self.entry.input.now) }
    {
        Ok(InputError {
            input: String::from_str(alloc, self.input)?,
        })
    }
}

impl<I: Stream + Copy> ParserError<I> for InputError<I> {
    type Inner = Self;

    ghost from_input_gives = { λ input e. e.input ≡ input };

    ghost assert_gives = { λ input e. e.input ≡ input };

    ghost incomplete_gives = { λ input _ e. e.input ≡ input };

    ghost append_gives = { λ e _ _ r. r ≡ e };

    ghost append_refusable = { ⊥ };

    ghost or_gives = { λ _ b r. r ≡ b };

    ghost or_refusable = { ⊥ };

    ghost backtracks = { λ _. true };

    ghost inner = { Ok };

    ghost needs = { λ _. None };

    fn from_input(_alloc: Global, input: &I) -> Self {
        InputError { input: *input }
    }

    fn assert(_alloc: Global, input: &I, _message: &'static str) -> Self {
        InputError { input: *input }
    }

    fn incomplete(_alloc: Global, input: &I, _needed: Needed) -> Self {
        InputError { input: *input }
    }

    fn append(
        self,
        _alloc: Global,
        _input: &I,
        _token_start: &I::Checkpoint,
    ) -> Result<Self, AllocError> {
        Ok(self)
    }

    fn or(self, _alloc: Global, other: Self) -> Result<Self, AllocError> {
        Ok(other)
    }

    fn is_backtrack(&self) -> bool {
        true
    }

    fn into_inner(self) -> Result<Self, Self> {
        Ok(self)
    }

    fn needed(&self) -> Option<Needed> {
        None
    }
}

impl<I: Stream + Copy> AssociativeOr<I> for InputError<I> {
    ghost joined = { λ _ b. b };

    ghost or_gives_joined = { λ _ _ _ e. e };

    ghost or_never_refused = { λ never. never };

    ghost joined_associative = { λ _ _ _. refl };
}

impl<I: Stream + Copy, C: Drop> AddContext<I, C> for InputError<I> {
    ghost add_context_gives = { λ e _ _ _ r. r ≡ e };

    ghost add_context_refusable = { ⊥ };

    fn add_context(
        self,
        _alloc: Global,
        _input: &I,
        _token_start: &I::Checkpoint,
        _context: C,
    ) -> Result<Self, AllocError> {
        Ok(self)
    }
}

impl<I: Stream + Copy> FromRecoverableError<I, Self> for InputError<I> {
    ghost recovered = { λ _ _ _ e. e };

    fn from_recoverable_error(
        _token_start: &I::Checkpoint,
        _err_start: &I::Checkpoint,
        _input: &I,
        e: Self,
    ) -> Self {
        e
    }
}

impl<I: Copy, E: Drop> FromExternalError<I, E> for InputError<I> {
    ghost from_external_gives = { λ input _ e. e.input ≡ input };

    fn from_external_error(_alloc: Global, input: &I, _e: E) -> Self {
        InputError { input: *input }
    }
}

/// Prints what a derived `Debug` would print.
impl<I: fmt::Debug> fmt::Debug for InputError<I> {
    ghost debug_output = { λ e. Some (codes "InputError { input: ") ++? I.debug_output e.input
        ++? Some (codes " }") };

    fn fmt<W: fmt::Write>(&self, f: &mut fmt::Formatter<W>) -> fmt::Result {
        if f.alternate() {
            return f
                .debug_struct("InputError")
                .field("input", &self.input)
                .finish();
        }
        f.write_str("InputError { input: ")?;
        self.input.fmt(f)?;
        f.write_str(" }")
    }
}

impl<I: fmt::Display> fmt::Display for InputError<I> {
    ghost output = { λ e. Some (codes "failed to parse starting at: ") ++? I.output e.input };

    ghost styled_output = { λ e _. Some (codes "failed to parse starting at: ")
        ++? I.output e.input };

    fn fmt<W: fmt::Write>(&self, f: &mut fmt::Formatter<W>) -> fmt::Result {
        let input = &self.input;
        write_bare(f, format_args!("failed to parse starting at: {input}"))
    }
}
