//! Errors, and the calls that join the errors of alternatives.

pub mod laws;

pub use winnow_error::{
    AddContext, AssociativeOr, EmptyError, ErrMode, ErrorConvert, FromExternalError,
    FromRecoverableError, InputError, ModalError, ModalResult, OrTree, ParserError, Plain,
    PlainError, PlainFromExternal, Result, combine, join_all,
};
pub use winnow_error_context::{ContextError, ContextItems, StrContext, StrContextValue};
pub use winnow_error_parse::{ParseError, translate_position};
pub use winnow_stream::Needed;
pub use winnow_tree::{TreeError, TreeErrorBase, TreeErrorContext, TreeErrorFrame, combine_trees};
