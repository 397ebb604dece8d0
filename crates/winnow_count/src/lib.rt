//! Counts, accumulators in which a repeated parser gathers its items, and values that are read from
//! what was taken.
//!
//! [`Range`] says how often a parser may repeat. [`Accumulate`] is the trait of every accumulator:
//! `()`, a count, vectors, queues, texts, maps and sets. An accumulator of a list of items holds
//! what the list gives, as [`accumulate_all`] says. [`ToUsize`] gives the number in a length field,
//! and [`ParseSlice`] reads a whole number, a `bool` or a `char` from what was taken.
#![tactic(auto)]

mod accumulate;
mod accumulators;
mod number_laws;
mod parse_slice;
mod range;
mod range_laws;
mod readable;
mod to_usize;

pub use accumulate::{Accumulate, accumulate_all};
pub use number_laws::{number_law, parse_slice_law};
pub use parse_slice::ParseSlice;
pub use range::Range;
pub use range_laws::range_law;
pub use readable::Readable;
pub use to_usize::ToUsize;
