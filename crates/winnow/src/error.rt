//! Errors, what a parser answers, and the calls that join the errors of alternatives.
//!
//! [`ModalResult`] is the one at the top. `winnow_base::error` has another of that name, over
//! [`ErrMode`], for code that keeps errors itself: such an error converts to a [`Failure`] by
//! `From`, and back by [`Failure::into_mode`].

pub use winnow_base::error::{
    AddContext, AssociativeOr, ContextError, ContextItems, EmptyError, ErrMode, ErrorConvert,
    FromExternalError, FromRecoverableError, InputError, ModalError, Needed, OrTree, ParseError,
    ParserError, Plain, PlainError, PlainFromExternal, Result, StrContext, StrContextValue,
    TreeError, TreeErrorBase, TreeErrorContext, TreeErrorFrame, combine, combine_trees, join_all,
    laws, translate_position,
};
pub use winnow_parser::{Failure, ModalResult, WholeResult};
