//! `ErrMode`, an error with its mode: `Incomplete`, `Backtrack` or `Cut`.

ghost use Rattle.std.specs.Prelude.{◌≡◌, is_some, IfOk, OnErr, IsNone, IsTrue};
ghost use Rattle.winnow_error.specs.Mode.{mode_needs, mode_backtracks, mode_inner, mode_cut};
ghost use Rattle.winnow_error.specs.Mode.{mode_backtrack, mode_map, mode_joined, IsBacktrackOf};
ghost use Rattle.winnow_error.specs.Mode.{IsCutOf, IfInner, ModeMaps, ModeAppends, ModeOr};
ghost use Rattle.winnow_error.specs.ModeText.{mode_text};
ghost use Rattle.winnow_error.specs.declared.mode.ErrMode.TheVariants.{Incomplete};
ghost use Rattle.winnow_error.specs.ModeLemmas.{mode_cut-cut, mode_backtrack-backtrack};
ghost use Rattle.winnow_error.specs.ModeLemmas.{ModeOr-joined, mode_joined-associative};

use crate::{
    AddContext, AssociativeOr, ErrorConvert, FromExternalError, FromRecoverableError, InputError,
    ModalError, ParserError, write_bare,
};
use std::alloc::{AllocError, Global};
use std::fmt;
use winnow_stream::{Needed, Stream};

/// An error, with what it means for a parser that tries alternatives.
///
/// Write `ErrMode<E>`: the second parameter is always [`Needed`]. It is a parameter only so that
/// the mode of an error which borrows its input can be passed on.
#[derive(Clone, Copy, Debug, PartialEq, Eq, Drop)]
pub enum ErrMode<E, N = Needed> {
    /// More input is needed before the parser can decide.
    Incomplete(N),
    /// The parser failed, and another alternative may be tried.
    Backtrack(E),
    /// The parser was the right one and failed: no other alternative is tried.
    Cut(E),
}

impl<E> ErrMode<E> {
    /// Returns whether more input is needed.
    pub fn is_incomplete(&self) -> bool
        ensures { result ≡ is_some (mode_needs self.now) }
    {
        matches!(self, ErrMode::Incomplete(_))
    }

    /// Forbids other alternatives: `Backtrack` becomes `Cut`.
    pub fn cut(self) -> Self
        ensures { result ≡ mode_cut self }
    {
        match self {
            ErrMode::Backtrack(error) => ErrMode::Cut(error),
            rest => rest,
        }
    }

    /// Allows other alternatives: `Cut` becomes `Backtrack`.
    pub fn backtrack(self) -> Self
        ensures { result ≡ mode_backtrack self }
    {
        match self {
            ErrMode::Cut(error) => ErrMode::Backtrack(error),
            rest => rest,
        }
    }

    /// Returns the same mode with the inner error that `f` makes of the old one.
    pub fn map<E2, F: FnOnce(E) -> E2>(self, f: F) -> ErrMode<E2>
    where
        F: Drop,
        requires { IfInner self (F.pre f) }
        ensures { ModeMaps (F.post f) self result }
    {
        match self {
            ErrMode::Incomplete(needed) => ErrMode::Incomplete(needed),
            ErrMode::Backtrack(error) => ErrMode::Backtrack(f(error)),
            ErrMode::Cut(error) => ErrMode::Cut(f(error)),
        }
    }

    /// Returns the same mode with the inner error converted.
    pub fn convert<E2>(self, alloc: Global) -> Result<ErrMode<E2>, AllocError>
    where
        E: ErrorConvert<E2>,
        ensures ok { IfOk result (ModeMaps E.convert_gives self) }
        ensures err { OnErr result (IsNone (mode_needs self) × E.convert_refusable) }
    {
        match self {
            ErrMode::Incomplete(needed) => Ok(ErrMode::Incomplete(needed)),
            ErrMode::Backtrack(error) => Ok(ErrMode::Backtrack(error.convert(alloc)?)),
            ErrMode::Cut(error) => Ok(ErrMode::Cut(error.convert(alloc)?)),
        }
    }

    /// Returns the inner error, or `Err` of `Incomplete`, which has none.
    pub fn into_inner(self) -> Result<E, Self>
        ensures { result ≡ mode_inner self }
    {
        match self {
            ErrMode::Backtrack(error) => Ok(error),
            ErrMode::Cut(error) => Ok(error),
            incomplete => Err(incomplete),
        }
    }
}

impl<I> ErrMode<InputError<I>> {
    /// Returns the same mode with the input that `f` makes of the old one.
    pub fn map_input<I2, F: FnOnce(I) -> I2>(self, f: F) -> ErrMode<InputError<I2>>
    where
        F: Drop,
        requires { IfInner self (λ e. F.pre f e.input) }
        ensures { ModeMaps (λ e r. F.post f e.input r.input) self result }
    {
        match self {
            ErrMode::Incomplete(needed) => ErrMode::Incomplete(needed),
            ErrMode::Backtrack(error) => ErrMode::Backtrack(InputError {
                input: f(error.input),
            }),
            ErrMode::Cut(error) => ErrMode::Cut(InputError {
                input: f(error.input),
            }),
        }
    }
}

impl<I: Stream, E: ParserError<I>> ParserError<I> for ErrMode<E> {
    type Inner = E;

    ghost from_input_gives = { λ input. IsBacktrackOf (E.from_input_gives input) };

    ghost assert_gives = { λ input. IsCutOf (E.assert_gives input) };

    ghost incomplete_gives = { λ _ needed e. e ≡ Incomplete needed };

    ghost append_gives = { λ e input token_start.
        ModeAppends (λ a. E.append_gives a input token_start) e };

    ghost append_refusable = { E.append_refusable };

    ghost or_gives = { ModeOr E.or_gives };

    ghost or_refusable = { E.or_refusable };

    ghost backtracks = { mode_backtracks };

    ghost inner = { mode_inner };

    ghost needs = { mode_needs };

    fn from_input(alloc: Global, input: &I) -> Self {
        ErrMode::Backtrack(E::from_input(alloc, input))
    }

    fn assert(alloc: Global, input: &I, message: &'static str) -> Self {
        ErrMode::Cut(E::assert(alloc, input, message))
    }

    fn incomplete(_alloc: Global, _input: &I, needed: Needed) -> Self {
        ErrMode::Incomplete(needed)
    }

    fn append(
        self,
        alloc: Global,
        input: &I,
        token_start: &I::Checkpoint,
    ) -> Result<Self, AllocError>
        requires valid { I.valid input.now }
        requires valid_checkpoint { I.valid_checkpoint token_start.now }
        ensures ok { IfOk result
            (ModeAppends (λ a. E.append_gives a input.now token_start.now) self) }
        ensures err { OnErr result (IsTrue (mode_backtracks self) × E.append_refusable) }
    {
        match self {
            ErrMode::Backtrack(error) => {
                let appended = error.append(alloc, input, token_start)?;
                Ok(ErrMode::Backtrack(appended))
            }
            other => Ok(other),
        }
    }

    fn or(self, alloc: Global, other: Self) -> Result<Self, AllocError>
        ensures ok { IfOk result (ModeOr E.or_gives self other) }
        ensures err { OnErr result (IsTrue (mode_backtracks self) × IsTrue (mode_backtracks other)
            × E.or_refusable) }
    {
        match self {
            ErrMode::Incomplete(first) => Ok(ErrMode::Incomplete(first)),
            ErrMode::Cut(first) => match other {
                ErrMode::Incomplete(second) => Ok(ErrMode::Incomplete(second)),
                ErrMode::Backtrack(_) => Ok(ErrMode::Cut(first)),
                ErrMode::Cut(_) => Ok(ErrMode::Cut(first)),
            },
            ErrMode::Backtrack(first) => match other {
                ErrMode::Backtrack(second) => Ok(ErrMode::Backtrack(first.or(alloc, second)?)),
                ErrMode::Incomplete(needed) => Ok(ErrMode::Incomplete(needed)),
                ErrMode::Cut(hard) => Ok(ErrMode::Cut(hard)),
            },
        }
    }

    fn is_backtrack(&self) -> bool {
        matches!(self, ErrMode::Backtrack(_))
    }

    fn into_inner(self) -> Result<E, Self> {
        match self {
            ErrMode::Backtrack(error) => Ok(error),
            ErrMode::Cut(error) => Ok(error),
            incomplete => Err(incomplete),
        }
    }

    fn needed(&self) -> Option<Needed> {
        match self {
            ErrMode::Incomplete(needed) => Some(*needed),
            _ => None,
        }
    }
}

impl<I: Stream, E: AssociativeOr<I>> AssociativeOr<I> for ErrMode<E> {
    ghost joined = { mode_joined E.joined };

    ghost or_gives_joined = { ModeOr-joined E.or_gives E.joined E.or_gives_joined };

    ghost or_never_refused = { E.or_never_refused };

    ghost joined_associative = { mode_joined-associative E.joined E.joined_associative };
}

impl<E> ModalError for ErrMode<E> {
    ghost cut_of = { mode_cut };

    ghost backtrack_of = { mode_backtrack };

    ghost cut_twice = { mode_cut-cut };

    ghost backtrack_twice = { mode_backtrack-backtrack };

    fn cut(self) -> Self {
        self.cut()
    }

    fn backtrack(self) -> Self {
        self.backtrack()
    }
}

impl<I: Stream, C: Drop, E: AddContext<I, C>> AddContext<I, C> for ErrMode<E> {
    ghost add_context_gives = { λ e input token_start context.
        ModeMaps (λ a. E.add_context_gives a input token_start context) e };

    ghost add_context_refusable = { E.add_context_refusable };

    fn add_context(
        self,
        alloc: Global,
        input: &I,
        token_start: &I::Checkpoint,
        context: C,
    ) -> Result<Self, AllocError>
        requires valid { I.valid input.now }
        requires valid_checkpoint { I.valid_checkpoint token_start.now }
        ensures ok { IfOk result
            (ModeMaps (λ a. E.add_context_gives a input.now token_start.now context) self) }
        ensures err { OnErr result (IsNone (mode_needs self) × E.add_context_refusable) }
    {
        match self {
            ErrMode::Incomplete(needed) => Ok(ErrMode::Incomplete(needed)),
            ErrMode::Backtrack(error) => {
                let backtrack = error.add_context(alloc, input, token_start, context)?;
                Ok(ErrMode::Backtrack(backtrack))
            }
            ErrMode::Cut(error) => {
                let cut = error.add_context(alloc, input, token_start, context)?;
                Ok(ErrMode::Cut(cut))
            }
        }
    }
}

impl<I: Stream, E, E2> FromRecoverableError<I, ErrMode<E2>> for ErrMode<E>
where
    E: FromRecoverableError<I, E2>,
{
    ghost recovered = { λ token_start err_start input.
        mode_map (E.recovered token_start err_start input) };

    fn from_recoverable_error(
        token_start: &I::Checkpoint,
        err_start: &I::Checkpoint,
        input: &I,
        e: ErrMode<E2>,
    ) -> Self {
        match e {
            ErrMode::Incomplete(needed) => ErrMode::Incomplete(needed),
            ErrMode::Backtrack(error) => {
                ErrMode::Backtrack(E::from_recoverable_error(token_start, err_start, input, error))
            }
            ErrMode::Cut(error) => {
                ErrMode::Cut(E::from_recoverable_error(token_start, err_start, input, error))
            }
        }
    }
}

impl<I, X, E: FromExternalError<I, X>> FromExternalError<I, X> for ErrMode<E> {
    ghost from_external_gives = { λ input x. IsBacktrackOf (E.from_external_gives input x) };

    fn from_external_error(alloc: Global, input: &I, e: X) -> Self {
        ErrMode::Backtrack(E::from_external_error(alloc, input, e))
    }
}

impl<E: ErrorConvert<E2>, E2> ErrorConvert<ErrMode<E2>> for ErrMode<E> {
    ghost convert_gives = { ModeMaps E.convert_gives };

    ghost convert_refusable = { E.convert_refusable };

    fn convert(self, alloc: Global) -> Result<ErrMode<E2>, AllocError>
        ensures ok { IfOk result (ModeMaps E.convert_gives self) }
        ensures err { OnErr result (IsNone (mode_needs self) × E.convert_refusable) }
    {
        self.convert(alloc)
    }
}

impl<E: fmt::Debug> fmt::Display for ErrMode<E> {
    ghost output = { mode_text E.debug_output };

    ghost styled_output = { λ e _. mode_text E.debug_output e };

    fn fmt<W: fmt::Write>(&self, f: &mut fmt::Formatter<W>) -> fmt::Result {
        match self {
            ErrMode::Incomplete(Needed::Size(size)) => {
                let size = size.get();
                write_bare(f, format_args!("Parsing requires {size} more data"))
            }
            ErrMode::Incomplete(Needed::Unknown) => f.write_str("Parsing requires more data"),
            ErrMode::Cut(error) => write_bare(f, format_args!("Parsing Failure: {error:?}")),
            ErrMode::Backtrack(error) => write_bare(f, format_args!("Parsing Error: {error:?}")),
        }
    }
}
