//! Rows of tests: a call, its input and the answer that is wanted, a line each.
//!
//! ```text
//! # Comments and empty lines part the rows.
//! find_slice | "abcd" ("b", "bc") | Some(1..2)
//! ```
//!
//! A program of rows implements [`Answers`], which makes a call and prints its answer as Rust's
//! debug text prints it, and hands it to [`run`]. Input is written as Rust writes literals
//! ([`Words`]).
#![tactic(auto)]

mod answers;
mod report;
mod word;
mod words;

pub use answers::{Answers, Fault};
pub use report::run;
pub use word::Word;
pub use words::Words;
