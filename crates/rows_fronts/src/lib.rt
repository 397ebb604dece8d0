//! A parser's answers on an input and on each front of it, as a row writes them, and the parsers
//! and counts that the call of a row writes.
#![tactic(auto)]

mod asking;
mod fronts;
mod parts;

pub use asking::{Row, ask};
pub use fronts::Fronts;
pub use parts::{Part, Set, counts, read_part, set};
