//! `dispatch!` and `seq!` as their users write them, in parts of a grammar and in functions, and a
//! contract of each, which says which parsers read. Nothing here is part of the library.
#![tactic(auto)]

mod choices;
mod fields;
mod laws;
mod meanings;

pub use choices::{
    read_depth, read_depth_of_piece, read_escaped, read_escaped_of_piece, read_marked,
    read_marked_of_piece,
};
pub use fields::{Point, Range, read_level, read_pair, read_point, read_range};
pub use laws::call_law;
pub use meanings::{Both, read_both, read_by_kind};
