//! Errors, trees of errors and parse errors as their users meet them: errors of a user's own,
//! generic code over any error, and the ghost members of each error, spelled out. Nothing here is
//! part of the library. `tests/errors` runs the functions of this crate.
#![tactic(auto)]

pub mod calls;
pub mod error_members;
pub mod error_walks;
pub mod failing;
pub mod own_errors;
pub mod tree_members;
