//! The ghost members of each error type, spelled out. Generic code promises only what they say, so
//! a member that says less is refused here.
ghost use Rattle.std.specs.Prelude.{◌≡◌, ◌&&◌, ℕ, true, None, Some, Ok, codes, nat_eq};
ghost use Rattle.std.specs.Prelude.{string_bytes};
ghost use Rattle.std.specs.Cmp.Lexicographic.{pointwise};
ghost use Rattle.std.specs.Fmt.{◌++?◌};
ghost use Rattle.std.specs.Option.{option_eq};
ghost use Rattle.winnow_error_context.specs.ContextDebug.{value_debug, context_debug};
ghost use Rattle.winnow_error_context.specs.ContextDebug.{explanation_debug};
ghost use Rattle.winnow_error_context.specs.ContextText.{value_text, context_text};
ghost use Rattle.winnow_error_context.specs.ContextText.{explanation_text};
ghost use Rattle.winnow_error_context.specs.Explanation.{Explanation, unexplained, caused_by};
ghost use Rattle.winnow_error_context.specs.Explanation.{pushed};
ghost use Rattle.winnow_error.specs.Mode.{Mode, ModeAppends, ModeMaps, ModeOr, IsBacktrackOf};
ghost use Rattle.winnow_error.specs.Mode.{IsCutOf, mode_needs, mode_backtracks, mode_inner};
ghost use Rattle.winnow_error.specs.Mode.{mode_cut, mode_backtrack, mode_map, mode_joined};
ghost use Rattle.winnow_error.specs.ModeText.{mode_text};
ghost use Rattle.winnow_error.specs.declared.input.InputError.{InputError};
ghost use Rattle.winnow_error.specs.declared.mode.ErrMode.TheVariants.{Incomplete};
ghost use Rattle.winnow_error.specs.declared.empty.EmptyError.{EmptyError};
ghost use Rattle.winnow_error_context.specs.declared.str_context.StrContext.{StrContext};
ghost use Rattle.winnow_error_context.specs.declared.str_context.StrContextValue.{StrContextValue};
ghost use Rattle.winnow_error_context.specs.declared.str_context.StrContextValue.TheVariants.{};
ghost use Rattle.winnow_error_context.specs.declared.str_context.StrContextValue.TheVariants.{CharLiteral};
ghost use Rattle.winnow_error_context.specs.declared.str_context.StrContextValue.TheVariants.{};
ghost use Rattle.winnow_error_context.specs.declared.str_context.StrContextValue.TheVariants.{StringLiteral};
ghost use Rattle.winnow_stream.specs.declared.needed.Needed.{Needed};

use std::fmt::{Debug, Display};
use winnow_error::{
    AddContext, AssociativeOr, EmptyError, ErrMode, ErrorConvert, FromExternalError,
    FromRecoverableError, InputError, ModalError, ParserError,
};
use winnow_error_context::{ContextError, StrContext, StrContextValue};
use winnow_stream::{Needed, Stream};

/// An `InputError` holds the input where it was made, and nothing is added to it later. Of two
/// alternatives the second counts.
pub fn input_error_members<I: Stream + Copy, C: Drop>()
    ensures made { (input : I) (e : InputError I)
        → ⟦<InputError<I> as ParserError<I>>⟧.from_input_gives input e → e.input ≡ input }
    ensures misused { (input : I) (e : InputError I)
        → ⟦<InputError<I> as ParserError<I>>⟧.assert_gives input e → e.input ≡ input }
    ensures cut_short { (input : I) (needed : Needed) (e : InputError I)
        → ⟦<InputError<I> as ParserError<I>>⟧.incomplete_gives input needed e → e.input ≡ input }
    ensures caused { (input : I) (x : C) (e : InputError I)
        → ⟦<InputError<I> as FromExternalError<I, C>>⟧.from_external_gives input x e
        → e.input ≡ input }
    ensures appended { (e r : InputError I) (input : I) (start : I.Checkpoint)
        → ⟦<InputError<I> as ParserError<I>>⟧.append_gives e input start r → r ≡ e }
    ensures told { (e r : InputError I) (input : I) (start : I.Checkpoint) (c : C)
        → ⟦<InputError<I> as AddContext<I, C>>⟧.add_context_gives e input start c r → r ≡ e }
    ensures second { (a b r : InputError I) → ⟦<InputError<I> as ParserError<I>>⟧.or_gives a b r
        → r ≡ b }
    ensures joined { (a b : InputError I) → ⟦<InputError<I> as AssociativeOr<I>>⟧.joined a b ≡ b }
    ensures recovered { (start place : I.Checkpoint) (input : I) (e : InputError I)
        → ⟦<InputError<I> as FromRecoverableError<I, InputError<I>>>⟧.recovered start place input e
        ≡ e }
    ensures backtracks { (e : InputError I) → ⟦<InputError<I> as ParserError<I>>⟧.backtracks e
        ≡ true }
    ensures inner { (e : InputError I) → ⟦<InputError<I> as ParserError<I>>⟧.inner e ≡ Ok e }
    ensures needs { (e : InputError I) → ⟦<InputError<I> as ParserError<I>>⟧.needs e ≡ None }
    ensures or_answers { ⟦<InputError<I> as ParserError<I>>⟧.or_refusable → ⊥ }
    ensures append_answers { ⟦<InputError<I> as ParserError<I>>⟧.append_refusable → ⊥ }
    ensures add_context_answers { ⟦<InputError<I> as AddContext<I, C>>⟧.add_context_refusable → ⊥ }
{}

/// A `ContextError` is made empty or of its cause. Only contexts are added to it, and it is equal
/// to one with equal contexts and the same cause. Of two alternatives the second counts.
pub fn context_error_members<I: Stream, C: Drop + PartialEq>()
    ensures made { (input : I) (e : Explanation C)
        → ⟦<ContextError<C> as ParserError<I>>⟧.from_input_gives input e → e ≡ unexplained }
    ensures misused { (input : I) (e : Explanation C)
        → ⟦<ContextError<C> as ParserError<I>>⟧.assert_gives input e → e ≡ unexplained }
    ensures cut_short { (input : I) (needed : Needed) (e : Explanation C)
        → ⟦<ContextError<C> as ParserError<I>>⟧.incomplete_gives input needed e → e ≡ unexplained }
    ensures caused { (input : I) (cause : _) (e : Explanation C)
        → ⟦<ContextError<C> as FromExternalError<I, String>>⟧.from_external_gives input cause e
        → e ≡ caused_by (string_bytes cause) }
    ensures appended { (e r : Explanation C) (input : I) (start : I.Checkpoint)
        → ⟦<ContextError<C> as ParserError<I>>⟧.append_gives e input start r → r ≡ e }
    ensures told { (e r : Explanation C) (input : I) (start : I.Checkpoint) (c : C)
        → ⟦<ContextError<C> as AddContext<I, C>>⟧.add_context_gives e input start c r
        → r ≡ pushed e c }
    ensures converted { (e r : Explanation C)
        → ⟦<ContextError<C> as ErrorConvert<ContextError<C>>>⟧.convert_gives e r → r ≡ e }
    ensures second { (a b r : Explanation C)
        → ⟦<ContextError<C> as ParserError<I>>⟧.or_gives a b r → r ≡ b }
    ensures joined { (a b : Explanation C) → ⟦<ContextError<C> as AssociativeOr<I>>⟧.joined a b
        ≡ b }
    ensures recovered { (start place : I.Checkpoint) (input : I) (e : Explanation C)
        → ⟦<ContextError<C> as FromRecoverableError<I, ContextError<C>>>⟧.recovered start place
        input e ≡ e }
    ensures backtracks { (e : Explanation C) → ⟦<ContextError<C> as ParserError<I>>⟧.backtracks e
        ≡ true }
    ensures inner { (e : Explanation C) → ⟦<ContextError<C> as ParserError<I>>⟧.inner e ≡ Ok e }
    ensures needs { (e : Explanation C) → ⟦<ContextError<C> as ParserError<I>>⟧.needs e ≡ None }
    ensures or_answers { ⟦<ContextError<C> as ParserError<I>>⟧.or_refusable → ⊥ }
    ensures append_answers { ⟦<ContextError<C> as ParserError<I>>⟧.append_refusable → ⊥ }
    ensures convert_answers { ⟦<ContextError<C> as ErrorConvert<ContextError<C>>>⟧.convert_refusable
        → ⊥ }
    ensures equal { (e f : Explanation C)
        → ⟦<ContextError<C> as PartialEq>⟧.eq e f
        ≡ (pointwise C.eq e.contexts f.contexts && option_eq (pointwise nat_eq) e.cause f.cause) }
{}

/// The errors that hold nothing take no memory, and let another alternative be tried.
pub fn empty_error_members<I: Stream, C: Drop>()
    ensures backtracks { (e : EmptyError) → ⟦<EmptyError as ParserError<I>>⟧.backtracks e ≡ true }
    ensures inner { (e : EmptyError) → ⟦<EmptyError as ParserError<I>>⟧.inner e ≡ Ok e }
    ensures needs { (e : EmptyError) → ⟦<EmptyError as ParserError<I>>⟧.needs e ≡ None }
    ensures or_answers { ⟦<EmptyError as ParserError<I>>⟧.or_refusable → ⊥ }
    ensures append_answers { ⟦<EmptyError as ParserError<I>>⟧.append_refusable → ⊥ }
    ensures add_context_answers { ⟦<EmptyError as AddContext<I, C>>⟧.add_context_refusable → ⊥ }
    ensures convert_answers { ⟦<EmptyError as ErrorConvert<EmptyError>>⟧.convert_refusable → ⊥ }
    ensures unit_backtracks { (e : Unit {0}) → ⟦<() as ParserError<I>>⟧.backtracks e ≡ true }
    ensures unit_inner { (e : Unit {0}) → ⟦<() as ParserError<I>>⟧.inner e ≡ Ok e }
    ensures unit_needs { (e : Unit {0}) → ⟦<() as ParserError<I>>⟧.needs e ≡ None }
    ensures unit_or_answers { ⟦<() as ParserError<I>>⟧.or_refusable → ⊥ }
    ensures unit_append_answers { ⟦<() as ParserError<I>>⟧.append_refusable → ⊥ }
    ensures unit_add_context_answers { ⟦<() as AddContext<I, C>>⟧.add_context_refusable → ⊥ }
    ensures unit_convert_answers { ⟦<() as ErrorConvert<()>>⟧.convert_refusable → ⊥ }
{}

/// An `ErrMode` is its inner error in a mode, and is refused memory only where the inner error may
/// be.
pub fn err_mode_members<I: Stream, E: ParserError<I>>()
    ensures made { (input : I) (e : Mode E)
        → ⟦<ErrMode<E> as ParserError<I>>⟧.from_input_gives input e
        → IsBacktrackOf (E.from_input_gives input) e }
    ensures misused { (input : I) (e : Mode E)
        → ⟦<ErrMode<E> as ParserError<I>>⟧.assert_gives input e → IsCutOf (E.assert_gives input) e }
    ensures cut_short { (input : I) (needed : Needed) (e : Mode E)
        → ⟦<ErrMode<E> as ParserError<I>>⟧.incomplete_gives input needed e → e ≡ Incomplete needed }
    ensures appended { (e r : Mode E) (input : I) (start : I.Checkpoint)
        → ⟦<ErrMode<E> as ParserError<I>>⟧.append_gives e input start r
        → ModeAppends (λ a. E.append_gives a input start) e r }
    ensures joined { (a b r : Mode E) → ⟦<ErrMode<E> as ParserError<I>>⟧.or_gives a b r
        → ModeOr E.or_gives a b r }
    ensures backtracks { (e : Mode E) → ⟦<ErrMode<E> as ParserError<I>>⟧.backtracks e
        ≡ mode_backtracks e }
    ensures inner { (e : Mode E) → ⟦<ErrMode<E> as ParserError<I>>⟧.inner e ≡ mode_inner e }
    ensures needs { (e : Mode E) → ⟦<ErrMode<E> as ParserError<I>>⟧.needs e ≡ mode_needs e }
    ensures cut { (e : Mode E) → ⟦<ErrMode<E> as ModalError>⟧.cut_of e ≡ mode_cut e }
    ensures backtrack { (e : Mode E) → ⟦<ErrMode<E> as ModalError>⟧.backtrack_of e
        ≡ mode_backtrack e }
    ensures append_refused { ⟦<ErrMode<E> as ParserError<I>>⟧.append_refusable
        → E.append_refusable }
    ensures or_refused { ⟦<ErrMode<E> as ParserError<I>>⟧.or_refusable → E.or_refusable }
{}

/// The same for alternatives that are joined without memory, and for recovery.
pub fn err_mode_joined_members<I: Stream, E: AssociativeOr<I> + FromRecoverableError<I, E2>, E2>()
    ensures joined { (a b : Mode E) → ⟦<ErrMode<E> as AssociativeOr<I>>⟧.joined a b
        ≡ mode_joined E.joined a b }
    ensures recovered { (start place : I.Checkpoint) (input : I) (e : Mode E2)
        → ⟦<ErrMode<E> as FromRecoverableError<I, ErrMode<E2>>>⟧.recovered start place input e
        ≡ mode_map (E.recovered start place input) e }
{}

/// The members of `ErrMode` for contexts are those of its error.
pub fn err_mode_context_members<I: Stream, C: Drop, E: AddContext<I, C>>()
    ensures told { (e r : Mode E) (input : I) (start : I.Checkpoint) (c : C)
        → ⟦<ErrMode<E> as AddContext<I, C>>⟧.add_context_gives e input start c r
        → ModeMaps (λ a. E.add_context_gives a input start c) e r }
    ensures refused { ⟦<ErrMode<E> as AddContext<I, C>>⟧.add_context_refusable
        → E.add_context_refusable }
{}

/// The members of `ErrMode` for errors of other libraries are those of its error.
pub fn err_mode_cause_members<I, X, E: FromExternalError<I, X>>()
    ensures { (input : I) (x : X) (e : Mode E)
        → ⟦<ErrMode<E> as FromExternalError<I, X>>⟧.from_external_gives input x e
        → IsBacktrackOf (E.from_external_gives input x) e }
{}

/// The members of `ErrMode` for conversions are those of its error.
pub fn err_mode_convert_members<E: ErrorConvert<E2>, E2>()
    ensures converted { (e : Mode E) (r : Mode E2)
        → ⟦<ErrMode<E> as ErrorConvert<ErrMode<E2>>>⟧.convert_gives e r
        → ModeMaps E.convert_gives e r }
    ensures refused { ⟦<ErrMode<E> as ErrorConvert<ErrMode<E2>>>⟧.convert_refusable
        → E.convert_refusable }
{}

/// The text of each error.
pub fn error_text_members<I: Display, E: Debug>()
    ensures mode { (e : Mode E) → ⟦<ErrMode<E> as Display>⟧.output e ≡ mode_text E.debug_output e }
    ensures input { (e : InputError I)
        → ⟦<InputError<I> as Display>⟧.output e
        ≡ (Some (codes "failed to parse starting at: ") ++? I.output e.input) }
    ensures empty { (e : EmptyError)
        → ⟦<EmptyError as Display>⟧.output e ≡ Some (codes "failed to parse") }
    ensures char { (c : ℕ) (v : StrContextValue) → ⟦<StrContextValue as From<char>>⟧.from_gives c v
        → v ≡ CharLiteral c }
    ensures literal { (text : _) (v : StrContextValue)
        → ⟦<StrContextValue as From<&'static str>>⟧.from_gives text v → v ≡ StringLiteral text }
    ensures value { (v : StrContextValue)
        → ⟦<StrContextValue as Display>⟧.output v ≡ Some (value_text v) }
    ensures context { (c : StrContext)
        → ⟦<StrContext as Display>⟧.output c ≡ Some (context_text c) }
    ensures contexts { (e : Explanation StrContext)
        → ⟦<ContextError<StrContext> as Display>⟧.output e ≡ Some (explanation_text e) }
{}

/// No format option changes what an error prints.
pub fn bare_text_members<I: Display, E: Debug>()
    ensures mode { (e : Mode E) (spec : _)
        → ⟦<ErrMode<E> as Display>⟧.styled_output e spec ≡ mode_text E.debug_output e }
    ensures input { (e : InputError I) (spec : _)
        → ⟦<InputError<I> as Display>⟧.styled_output e spec
        ≡ ⟦<InputError<I> as Display>⟧.output e }
    ensures empty { (e : EmptyError) (spec : _)
        → ⟦<EmptyError as Display>⟧.styled_output e spec ≡ Some (codes "failed to parse") }
    ensures value { (v : StrContextValue) (spec : _)
        → ⟦<StrContextValue as Display>⟧.styled_output v spec ≡ Some (value_text v) }
    ensures context { (c : StrContext) (spec : _)
        → ⟦<StrContext as Display>⟧.styled_output c spec ≡ Some (context_text c) }
    ensures contexts { (e : Explanation StrContext) (spec : _)
        → ⟦<ContextError<StrContext> as Display>⟧.styled_output e spec ≡ Some (explanation_text e) }
{}

/// The debug text of each error, so that a mode of it has a text.
pub fn debug_text_members<I: Debug, C: Debug>()
    ensures input { (e : InputError I) → ⟦<InputError<I> as Debug>⟧.debug_output e
        ≡ (Some (codes "InputError { input: ") ++? I.debug_output e.input ++? Some (codes " }")) }
    ensures empty { (e : EmptyError) → ⟦<EmptyError as Debug>⟧.debug_output e
        ≡ Some (codes "EmptyError") }
    ensures value { (v : StrContextValue) → ⟦<StrContextValue as Debug>⟧.debug_output v
        ≡ value_debug v }
    ensures context { (c : StrContext) → ⟦<StrContext as Debug>⟧.debug_output c ≡ context_debug c }
    ensures contexts { (e : Explanation C) → ⟦<ContextError<C> as Debug>⟧.debug_output e
        ≡ explanation_debug C.debug_output e }
{}
