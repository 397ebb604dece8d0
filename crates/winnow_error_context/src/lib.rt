//! [`ContextError`]: an error that says what was being read when it occurred and what was expected
//! there, with its text.
#![tactic(auto)]

mod context;
mod context_items;
mod context_text;
mod str_context;
mod variants;

pub use context::ContextError;
pub use context_items::ContextItems;
pub use str_context::{StrContext, StrContextValue};
