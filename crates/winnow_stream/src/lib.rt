//! Streams of tokens: what a parser reads from.
//!
//! [`Stream`] is the trait that every stream meets: tokens with widths, of which calls take the
//! front. This crate has the trait with its laws, the plain streams `&[T]` and `&str`, the small
//! traits beside it, and the sets that a script of calls can name.
#![tactic(auto)]

mod as_bytes;
mod checkpoint;
mod is_partial;
mod laws;
mod location;
mod needed;
mod offset;
mod script_set;
mod slice_len;
mod slices;
mod stream;
mod texts;
mod update_slice;

pub use as_bytes::{AsBStr, AsBytes};
pub use checkpoint::Checkpoint;
pub use is_partial::StreamIsPartial;
pub use laws::{
    byte_slice_law, checkpoint_equality_law, checkpoint_order_law, first_law, front_law, held_law,
    moving_law, offset_law, shortage_law, slice_bytes_law, slice_law, span_law, taken_law,
    text_law, text_slice_law,
};
pub use location::Location;
pub use needed::Needed;
pub use offset::Offset;
pub use script_set::{NoSet, ScriptSet};
pub use slice_len::SliceLen;
pub use slices::SliceOffsets;
pub use stream::{Rest, Stream};
pub use texts::Str;
pub use update_slice::UpdateSlice;
