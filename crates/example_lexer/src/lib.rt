//! A lexer that knows where each token stands: names, numbers, and other bytes, with blanks between
//! them. It lexes any stream of bytes that knows its location. Its contract says what a reader of
//! the tokens wants to know: the text of each is of its kind, stands where its span says, and goes
//! on as far as it can, and only blanks are skipped.
//!
//! A parser of the tokens is a second stage: the crate `example_two_stages` has one.
#![tactic(auto)]

mod lexer;
mod token;

pub use lexer::{lex, tokens};
pub use token::{Kind, Token};
