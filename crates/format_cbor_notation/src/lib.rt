//! The diagnostic notation of CBOR (RFC 8949, section 8): items as text for people.
//!
//! [`append_item`] appends the notation of an item: integers in decimal, `h'01ff'` for bytes, a
//! text between quotes with the escapes of JSON, `[1, 2]`, `{"a": 1}`, `1(0)` for the tag 1, and
//! `simple(16)`. A float is the shortest decimal number that is read back as it, with a point; or
//! it is `NaN`, `Infinity` or `-Infinity`. How an item was spelled is not shown, and no tag is
//! interpreted.
//!
//! The functions are proved safe, to end, and no more: what they append is tested.
#![tactic(auto)]

mod floats;
mod notation;

pub use floats::append_float;
pub use notation::append_item;
