//! Errors of parsers: what a parser answers in place of a value, and how the errors of alternatives
//! are joined.
#![tactic(auto)]

mod add_context;
mod associative_or;
mod bare;
mod bit_errors;
mod combining;
mod empty;
mod error_convert;
mod failure;
mod from_external;
mod from_recoverable;
mod input;
mod laws;
mod modal_error;
mod mode;
mod parser_error;
mod plain;
mod result;
mod unit;

pub use add_context::AddContext;
pub use associative_or::AssociativeOr;
#[doc(hidden)]
pub use bare::write_bare;
pub use combining::{OrTree, combine, join_all};
pub use empty::EmptyError;
pub use error_convert::ErrorConvert;
pub use failure::Failure;
pub use from_external::FromExternalError;
pub use from_recoverable::FromRecoverableError;
pub use input::InputError;
pub use laws::{bracket_law, mode_law, or_law};
pub use modal_error::ModalError;
pub use mode::ErrMode;
pub use parser_error::ParserError;
pub use plain::{Plain, PlainError, PlainFromExternal};
pub use result::{ModalResult, Result};
pub use winnow_stream::Needed;
