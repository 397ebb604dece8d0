//! Bytes that are no text, as a stream: [`Bytes`] streams as a slice of bytes does, call for call,
//! as `BStr` of the crate below does, and prints two hexadecimal digits for each byte.
#![tactic(auto)]

mod bytes;
mod hex;
mod laws;

pub use bytes::Bytes;
pub use hex::{LowerBytes, UpperBytes};
pub use laws::{bytes_equality_law, bytes_hash_law, bytes_order_law, bytes_slice_law};
