//! The laws of the bits of a stream: a law does nothing when called, and its contract is the law.

pub use winnow_views::{
    bit_checkpoint_law, bit_equality_law, bit_place_law, bit_slice_law, bit_slice_place_law,
    bit_source_law,
};
