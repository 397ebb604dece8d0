//! Streams that read bytes as something else.

pub mod bits;
