//! Exactness: from the meaning of a parser to the language that it reads.
//!
//! A parser is exact for a language (`IsExact` in `specs/Exact.antt`) if it takes the longest front
//! of its input that is in the language, and backtracks only if no front is. A lemma for each
//! combinator leads from its parts to the whole (`proofs/lemmas/`), as `lawful` of a grammar is put
//! together: one token, a run of tokens, another value, a value that passes a test or that a
//! function verifies, a value that may be missing, one parser after another, one value of two, the
//! first of two, values in a row, and values with separators between them, as a list or folded from
//! the left.
//!
//! [`nested_by_rule`] is a grammar that contains itself, to a depth, by the meaning of one layer
//! ([`LayerRule`]). It is exact if a layer is whose inner parser is (`IsExact-IsNested`).
#![tactic(auto, using(winnow_parser::proofs::lemmas::OnwardLemmas::onward_steps))]

mod parsers;

pub use parsers::nested_by_rule::{LayerRule, NestedByRule, nested_by_rule};
