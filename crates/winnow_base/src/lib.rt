//! The lowest layer of a parser library, under one name: streams, errors and bits.
//!
//! It is laid out as the Rust crate `winnow` is, so that `use winnow::stream::..` becomes
//! `use winnow_base::stream::..`:
//!
//! - [`stream`]: what a parser reads from, its wrappers, comparison and search, sets of tokens,
//!   counts and accumulators, scripts of calls, and feeds, which run a script over input that
//!   arrives in pieces;
//! - [`error`]: what a parser fails with;
//! - [`binary::bits`]: the bits of a stream of bytes.
//!
//! Laws stand in modules of their own: [`stream::laws`], [`error::laws`], [`binary::bits::laws`].
//! Each item is defined in a smaller crate, with its proofs. `specs/` passes on what contracts
//! name: a contract of your own imports `Rattle.winnow_base.specs.Source.{first_token}`.
#![tactic(auto)]

pub mod binary;
pub mod error;
pub mod stream;
