//! The bits of a stream of bytes.

pub mod laws;

pub use winnow_views::{BitOffsets, BitPlace, Bits};
