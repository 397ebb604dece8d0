//! `Failure`, why a parser has no value.

ghost use Rattle.std.specs.Prelude.{◌≡◌, is_some};
ghost use Rattle.winnow_error.specs.declared.failure.Failure.TheVariants.{Refused};
ghost use Rattle.winnow_error.specs.Failures.{failure_backtracks, failure_needs, failure_cut};
ghost use Rattle.winnow_error.specs.Failures.{failure_backtrack, failure_inner, failure_of};
ghost use Rattle.winnow_error.specs.Failures.{mode_of, IfCarries, FailureMaps};
ghost use Rattle.winnow_error.specs.FailureText.{failure_text};

use crate::bare::write_bare;
use crate::mode::ErrMode;
use std::alloc::AllocError;
use std::fmt;
use winnow_stream::Needed;

/// Why a parser has no value.
///
/// It is written `Failure<E>`: the second parameter is always [`Needed`]. The first three variants
/// are those of [`ErrMode`], which converts to a failure by `From`. This library adds the last,
/// since memory is never taken for granted.
#[derive(Debug, Drop)]
pub enum Failure<E, N = Needed> {
    /// More input is needed to decide
    Incomplete(N),
    /// The parser failed, and another may be tried
    Backtrack(E),
    /// The parser was the right one and failed: no other is tried
    Cut(E),
    /// Memory was refused, and nothing is known of the input
    Refused(AllocError),
}

impl<E> Failure<E> {
    /// Returns whether another parser may be tried.
    pub fn is_backtrack(&self) -> bool
        ensures { result ≡ failure_backtracks self.now }
    {
        matches!(self, Failure::Backtrack(_))
    }

    /// Returns whether more input is needed.
    pub fn is_incomplete(&self) -> bool
        ensures { result ≡ is_some (failure_needs self.now) }
    {
        matches!(self, Failure::Incomplete(_))
    }

    /// Returns how many tokens more are needed, or `None` where the failure is not `Incomplete`.
    pub fn needed(&self) -> Option<Needed>
        ensures { result ≡ failure_needs self.now }
    {
        match self {
            Failure::Incomplete(needed) => Some(*needed),
            _ => None,
        }
    }

    /// Forbids other parsers: `Backtrack` becomes `Cut`.
    pub fn cut(self) -> Self
        ensures { result ≡ failure_cut self }
    {
        match self {
            Failure::Backtrack(error) => Failure::Cut(error),
            rest => rest,
        }
    }

    /// Allows other parsers: `Cut` becomes `Backtrack`.
    pub fn backtrack(self) -> Self
        ensures { result ≡ failure_backtrack self }
    {
        match self {
            Failure::Cut(error) => Failure::Backtrack(error),
            rest => rest,
        }
    }

    /// Returns the same failure with the error that `f` makes of the old one.
    pub fn map<E2, F: FnOnce(E) -> E2>(self, f: F) -> Failure<E2>
    where
        F: Drop,
        requires { IfCarries self (F.pre f) }
        ensures { FailureMaps (F.post f) self result }
    {
        match self {
            Failure::Incomplete(needed) => Failure::Incomplete(needed),
            Failure::Backtrack(error) => Failure::Backtrack(f(error)),
            Failure::Cut(error) => Failure::Cut(f(error)),
            Failure::Refused(refused) => Failure::Refused(refused),
        }
    }

    /// Returns the error, or `Err` of a failure that carries none.
    pub fn into_inner(self) -> Result<E, Self>
        ensures { result ≡ failure_inner self }
    {
        match self {
            Failure::Backtrack(error) => Ok(error),
            Failure::Cut(error) => Ok(error),
            other => Err(other),
        }
    }

    /// Returns the error with its mode, or `Err` where memory was refused: no mode says so.
    pub fn into_mode(self) -> Result<ErrMode<E>, AllocError>
        ensures { result ≡ mode_of self }
    {
        match self {
            Failure::Incomplete(needed) => Ok(ErrMode::Incomplete(needed)),
            Failure::Backtrack(error) => Ok(ErrMode::Backtrack(error)),
            Failure::Cut(error) => Ok(ErrMode::Cut(error)),
            Failure::Refused(refused) => Err(refused),
        }
    }
}

impl<E> From<AllocError> for Failure<E> {
    ghost from_gives = { λ refused failure. failure ≡ Refused refused };

    fn from(refused: AllocError) -> Self {
        Failure::Refused(refused)
    }
}

impl<E> From<ErrMode<E>> for Failure<E> {
    ghost from_gives = { λ mode failure. failure ≡ failure_of mode };

    fn from(mode: ErrMode<E>) -> Self {
        match mode {
            ErrMode::Incomplete(needed) => Failure::Incomplete(needed),
            ErrMode::Backtrack(error) => Failure::Backtrack(error),
            ErrMode::Cut(error) => Failure::Cut(error),
        }
    }
}

impl<E: fmt::Debug> fmt::Display for Failure<E> {
    ghost output = { failure_text E.debug_output };

    ghost styled_output = { λ e _. failure_text E.debug_output e };

    fn fmt<W: fmt::Write>(&self, f: &mut fmt::Formatter<W>) -> fmt::Result {
        match self {
            Failure::Incomplete(Needed::Size(size)) => {
                let size = size.get();
                write_bare(f, format_args!("Parsing requires {size} more data"))
            }
            Failure::Incomplete(Needed::Unknown) => f.write_str("Parsing requires more data"),
            Failure::Cut(error) => write_bare(f, format_args!("Parsing Failure: {error:?}")),
            Failure::Backtrack(error) => write_bare(f, format_args!("Parsing Error: {error:?}")),
            Failure::Refused(_) => f.write_str("Memory was refused"),
        }
    }
}
