//! CBOR (RFC 8949) in its general form, read to the items of `format_cbor`: arguments in any number
//! of bytes, strings, arrays and maps of indefinite length, floats of any width, and the keys of a
//! map in any order, also twice.
//!
//! [`read_item`] reads one item, within limits, from bytes that are all there, and says of others
//! what is wrong, and where. What it reads does not say how it was spelled: of a string of
//! indefinite length the chunks are joined, and an argument is its number. [`Scan`] finds where an
//! item ends whose bytes come in pieces, and looks at each byte once.
//!
//! The functions are proved safe, to end, and no more: which items they return is tested.
#![tactic(auto)]

mod cursor;
mod fault;
mod general_head;
mod reading;
mod scalars;
mod scanning;

pub use fault::{Cause, ReadError};
pub use reading::{Limits, read_item};
pub use scanning::Scan;
