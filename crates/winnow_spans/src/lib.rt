//! Spans of tokens that know where they stand: ranges of the lexer's input, over a stream of the
//! tokens that the lexer made.
//!
//! A stream of tokens, as `TokenSlice`, counts its own place in tokens, and each token has a
//! [`Location`](winnow_stream::Location) in the lexer's input. The method `span` of a parser needs
//! a stream whose own place is the location. [`token_span`] and [`with_token_span`] take the range
//! from the tokens: from where the first one starts to where the last one ends.
#![tactic(auto)]

mod parsers;
mod slice_span;

pub use parsers::token_span::{TokenSpan, token_span};
pub use parsers::with_token_span::{WithTokenSpan, with_token_span};
pub use slice_span::SliceSpan;
