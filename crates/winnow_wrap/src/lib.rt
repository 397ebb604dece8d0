//! Wrappers around streams: what a parser carries along with its input.
//!
//! [`LocatingSlice`] knows its location in the whole input, [`Stateful`] carries a state, and
//! [`Partial`] has a flag that more input may follow. Each meets the whole of `Stream` from the
//! stream inside alone, so they nest in any order over any stream.
#![tactic(auto)]

mod laws;
mod located;
mod locating;
mod partial;
mod stateful;

pub use laws::{
    flagged_equality_law, flagged_order_law, located_equality_law, located_order_law,
    stateful_equality_law, wrapper_checkpoint_equality_law, wrapper_checkpoint_order_law,
    wrapper_slice_law, wrapper_text_slice_law,
};
pub use located::{LocatingSlice, Placed};
pub use partial::Partial;
pub use stateful::Stateful;
