//! A parser library under one name: parsers that carry their meaning, over the streams and errors
//! of `winnow_base`.
//!
//! It is laid out as the Rust crate is: [`Parser`], [`ModalResult`] and the wrappers of streams at
//! the top, the names that most grammars need in [`prelude`], parsers of tokens in [`token`], of
//! ASCII text in [`ascii`], of numbers and counted parts in [`binary`], parsers that are made of
//! parsers in [`combinator`], grammars of one's own, also with what spells their values, in
//! [`grammar`], ranges of lexed tokens in [`spans`], formats that are read and written by one
//! description in [`codec`], readers over pieces in [`reader`] and [`scan`], with a limit in
//! [`limit`], errors in [`error`], and [`stream`] as `winnow_base` has it.
//!
//! Laws stand in modules of their own: [`laws`], [`token::laws`], and so on. Everything here comes
//! from a crate of its own, with its proofs. `specs/` passes on the definitions that contracts of
//! parsers name, so a contract of your own imports `Rattle.winnow.specs.Outcome.{Meaning}`.
//! `winnow_base` passes on those of streams and errors.
#![tactic(auto)]

pub mod ascii;
pub mod binary;
pub mod codec;
pub mod combinator;
pub mod error;
pub mod laws;
pub mod prelude;
pub mod token;

pub use winnow_base::stream;
pub use winnow_base::stream::{BStr, Bytes, LocatingSlice, Partial, Stateful};
pub use winnow_exact as exact;
pub use winnow_grammar as grammar;
pub use winnow_grammar::{ByRule, Rule, by_rule};
pub use winnow_liveness as liveness;
pub use winnow_parser::{
    AndThen, ByBorrow, ByValue, Context, ContextWith, DefaultValue, ErrInto, Failure, FlatMap, Map,
    MapErr, ModalResult, OutputInto, ParseTo, Parser, Span, Taken, TryMap, Value, ValueTest,
    Verify, VerifyMap, Void, WholeResult, WithSpan, WithTaken,
};
pub use winnow_reader as reader;
pub use winnow_reader_limit as limit;
pub use winnow_scan as scan;
pub use winnow_spans as spans;
