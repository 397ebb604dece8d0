//! Trees of errors: a [`TreeError`] holds each alternative that was tried, where it failed, and
//! what was being read.
#![tactic(auto)]

mod abbreviation;
mod combining;
mod convert;
mod joining;
mod laws;
mod mapping;
mod parts;
mod pushing;
mod text;
mod tree;

pub use combining::combine_trees;
pub use laws::{tree_bracket_law, tree_or_law};
pub use parts::{TreeErrorBase, TreeErrorContext, TreeErrorFrame};
pub use tree::TreeError;
