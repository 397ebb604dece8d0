//! Parsers in the form of a `match` and of a struct: `dispatch!`, which chooses a parser by a value
//! that was read, and `seq!`, which reads the fields of a struct one after another.
//!
//! Each stands for combinators, and its parser means what they mean: `dispatch!` is a `flat_map` to
//! one of the parsers ([`Chosen`]), `seq!` the `map` of a tuple. A crate that calls them lists
//! `winnow_macros`.
#![tactic(auto, using(winnow_parser::proofs::lemmas::OnwardLemmas::onward_steps))]

mod chosen;
mod dispatch;
mod laws;
mod seq;

pub use chosen::Chosen;
pub use laws::determined_chosen_law;
#[doc(hidden)]
pub use winnow_parser::Parser;
