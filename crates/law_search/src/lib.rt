//! What contracts say of sets of tokens, of searches, of ranges of counts, of sizes and of values
//! that are read from slices: calls through bounds, as generic code makes them, members spelled
//! out, and a call of each law. Nothing here is part of the library.
#![tactic(auto)]

mod feed_laws;
mod ranges;
mod readings;
mod searches;
mod sets;
mod sizes;

pub use feed_laws::feed_laws_can_be_called;
pub use ranges::{range_of, text_members};
pub use readings::{byte_of, parsed};
pub use searches::search_laws_can_be_called;
pub use sets::{holds, script_holds, told, union_laws_can_be_called};
pub use sizes::size;
