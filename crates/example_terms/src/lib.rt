//! TermLayers of Erlang's external format, read and written by one description, nested to a depth.
//!
//! Of the tags of the format (chapter 2 of the distribution protocol of Erlang/OTP) these are four:
//! of integers in one byte and in four, of tuples, and of binaries. Another is read as no term.
#![tactic(auto)]

mod exchange;
mod term;

pub use exchange::{read_term, term_law, write_term};
pub use term::{Heads, HeldBytes, Term, TermLayers, terms};
