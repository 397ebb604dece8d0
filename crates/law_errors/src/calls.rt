//! One call of each law of errors and trees, and of the generic code at an error of the library.
ghost use Rattle.std.specs.Prelude.{◌≡◌, IfOk, codes, string_bytes};

use crate::error_members::{
    bare_text_members, context_error_members, debug_text_members, empty_error_members,
    err_mode_cause_members, err_mode_context_members, err_mode_convert_members,
    err_mode_joined_members, err_mode_members, error_text_members, input_error_members,
};
use crate::error_walks::{convert_to, cut_and_back, fail_thrice, kinds, tell_last};
use crate::own_errors::Labelled;
use std::alloc::{AllocError, Global};
use std::fmt::{Debug, Display};
use winnow_error::ErrMode::Cut;
use winnow_error::{
    AddContext, AssociativeOr, EmptyError, ErrMode, ErrorConvert, FromExternalError,
    FromRecoverableError, ModalError, bracket_law, mode_law, or_law,
};
use winnow_error_context::{ContextError, StrContext};
use winnow_stream::Stream;
use winnow_tree::{tree_bracket_law, tree_or_law};

type Text<'i> = &'i str;

type Told = ContextError<StrContext>;

// Laws do nothing. The calls show that each can be called.
fn laws<I: Stream + Copy + Display + Debug, C: Drop + PartialEq + Debug, E>()
where
    E: AssociativeOr<I> + FromRecoverableError<I, E> + AddContext<I, C>,
    E: FromExternalError<I, String> + ErrorConvert<E> + Debug,
{
    mode_law::<E>();
    or_law::<I, E>();
    bracket_law::<I, E>();
    input_error_members::<I, C>();
    empty_error_members::<I, C>();
    context_error_members::<I, C>();
    err_mode_members::<I, E>();
    err_mode_joined_members::<I, E, E>();
    err_mode_context_members::<I, C, E>();
    err_mode_cause_members::<I, String, E>();
    err_mode_convert_members::<E, E>();
    error_text_members::<I, E>();
    bare_text_members::<I, E>();
    debug_text_members::<I, C>();
}

/// Calls the laws of errors.
pub fn laws_of_errors() {
    laws::<Text, u8, EmptyError>();
}

/// Calls the laws of trees.
pub fn laws_of_trees() {
    tree_or_law::<&str, StrContext>();
    tree_bracket_law::<&str, StrContext>();
}

// Returns what generic code makes of an error type: errors made in three ways, the inner error of
// three alternatives, and the last of three, which was an error of another library, got a context
// elsewhere, and was recovered from. It was then cut, and may be tried again.
fn made<I: Stream, E>(
    alloc: Global,
    input: &I,
    elsewhere: &I,
) -> Result<([(bool, bool); 3], String), AllocError>
where
    E: AssociativeOr<I> + AddContext<I, StrContext> + FromExternalError<I, String>,
    E: FromRecoverableError<I, E> + ModalError + Debug + Drop,
    E::Inner: Debug + Drop,
    requires input { I.valid input.now }
    requires elsewhere { I.valid elsewhere.now }
{
    let inner = fail_thrice::<I, E>(alloc, input)?;
    let last = cut_and_back(tell_last::<I, E>(alloc, input, elsewhere)?);
    let text = format!(in alloc; "{inner:?} {last:?}")?;
    Ok((kinds::<I, E>(alloc, input), text))
}

/// Returns what generic code makes of an error with contexts in a mode.
pub fn made_of_a_mode(alloc: Global) -> Result<([(bool, bool); 3], String), AllocError> {
    made::<Text, ErrMode<Told>>(alloc, &"12x", &"")
}

/// Returns an error of a user's own, converted to one with a context.
pub fn converted(alloc: Global) -> Result<ErrMode<Told>, AllocError> {
    convert_to(alloc, Cut(Labelled("number")))
}

/// Returns the text of a mode over an error of this library: the contract gives it whole.
pub fn failure(alloc: Global) -> Result<String, AllocError>
    ensures { IfOk result (λ text. string_bytes text ≡ codes "Parsing Failure: EmptyError") }
{
    let error: ErrMode<EmptyError> = Cut(EmptyError);
    format!(in alloc; "{error}")
}
