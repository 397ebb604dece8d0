//! A grammar that refers to itself: trees, each written as its branches between brackets, as in
//! `[[][[]]]`.
//!
//! The parser of a tree asks the parser of its branches, which is the same parser with a smaller
//! depth. So its calls are nested at most `depth` levels deep on each input, and a deeper tree is a
//! failure that has a place.
//!
//! `tree` has the type that is read. In `nested`, `read_around` is one level of the grammar,
//! generic in the parser of the branches, and `read_nested` ties the levels together. The contract
//! of `read_tree` says what a caller wants to know: which trees it gives, where it fails, and that
//! it misses none.
#![tactic(auto, using(winnow_parser::proofs::lemmas::OnwardLemmas::onward_steps))]

mod nested;
mod tree;

pub use nested::{TreeTo, read_tree};
pub use tree::Tree;
