//! Prints the answers of a script as lines, with the words of slices and items that [`PushWords`]
//! appends.
//!
//! [`push_answer`] appends the line of an answer, [`push_answers`] those of several, and
//! [`push_numbered`] that of an answer over pieces.
#![tactic(auto)]

mod answers;
mod words;

pub use answers::{push_answer, push_answers, push_numbered};
pub use words::PushWords;
