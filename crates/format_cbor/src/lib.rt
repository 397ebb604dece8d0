//! CBOR (RFC 8949), read and written by one description, in the deterministic form (section 4.2).
//!
//! [`heads`] is the format of heads, [`scalars`] that of items that hold no other, and [`items`]
//! that of items within a number of arrays, maps and tags:
//!
//! ```
//! assert_eq!(rt; text_of(alloc, &items(100, 1), b"\x81\x80")?.as_str(), "Array([Array([])])");
//! ```
//!
//! Only the deterministic form is read, so a value has one spelling. A head is refused if its
//! argument fits fewer bytes, if it begins an indefinite length (additional information 31), or if
//! its additional information is reserved (28 to 30). A map is refused if its keys are not in
//! order, or one is there twice; and a float if fewer bits have its value, and a NaN if it is not
//! `f9 7e 00`. No tag is interpreted.
#![tactic(auto)]

mod argument;
mod entry;
mod exchange;
mod float;
mod head;
mod head_format;
mod item;
mod item_format;
mod item_reading;
mod item_writing;
mod scalar;
mod scalar_format;

pub use argument::Argument;
pub use exchange::{head_law, item_law, read_data_item, scalar_law, write_data_item};
pub use head::{Head, Kind};
pub use head_format::{ArgumentAfter, HeadFormat, heads};
pub use item::Item;
pub use item_format::{ItemFormat, items};
pub use scalar::Scalar;
pub use scalar_format::{ScalarAfter, ScalarFormat, scalars};
