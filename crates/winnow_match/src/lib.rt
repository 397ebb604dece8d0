//! Literals at the front of a stream, and the first place of a needle in it.
//!
//! [`Compare`] says how a stream begins, and [`FindSlice`] finds the first place at which one of up
//! to three needles stands. Both are stated over the bytes that remain, a character in its UTF-8
//! form, and neither takes memory.
#![tactic(auto)]

mod caseless;
mod compare;
mod compare_bytes;
mod compare_text;
mod find_bytes;
mod find_slice;
mod find_text;
mod finders;
mod finding;
mod laws;
mod movers;
mod needles;

pub use caseless::Caseless;
pub use compare::{Compare, CompareResult};
pub use find_slice::FindSlice;
pub use finders::Finders;
pub use laws::{
    byte_hit_law, compare_law, compare_more_law, definite_hit_law, find_law, find_more_law,
    stretch_equality_law, stretch_law,
};
pub use movers::stretch;
pub use needles::{Needles, Stretch};
