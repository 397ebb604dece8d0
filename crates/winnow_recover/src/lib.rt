//! Recovery: streams on which a parser records an error and then goes on.
#![tactic(auto)]

mod laws;
mod plain;
mod record_error;
mod recover;
mod recoverable;
mod wrappers;

pub use laws::{recoverable_slice_law, recoverable_text_slice_law};
pub use record_error::RecordError;
pub use recover::Recover;
pub use recoverable::Recoverable;
