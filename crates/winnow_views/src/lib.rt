//! Streams that show their input as something else: [`TokenSlice`] lends the tokens that a lexer
//! made, and [`Bits`] are the bits of a stream of bytes.
#![tactic(auto)]

mod bit_laws;
mod bit_offsets;
mod bits;
mod previous_tokens;
mod token_laws;
mod token_offsets;
mod token_slice;
mod token_view;

pub use bit_laws::{
    bit_checkpoint_law, bit_equality_law, bit_place_law, bit_slice_law, bit_slice_place_law,
    bit_source_law,
};
pub use bit_offsets::BitOffsets;
pub use bits::{BitPlace, Bits};
pub use previous_tokens::PreviousTokens;
pub use token_laws::{token_compare_law, token_equality_law, token_order_law};
pub use token_offsets::TokenOffsets;
pub use token_slice::TokenSlice;
pub use token_view::TokenView;
