//! Streams as their users meet them: streams of their own, parsers over any stream with the
//! contracts that they give, and the members of the library's streams and wrappers, spelled out.
//!
//! Nothing here is part of the library. Each law is called once: it does nothing, and the call
//! shows that it can be called. Generic code promises only what the members of a type say, so a
//! law that spells members out refuses a member that says less.
#![tactic(auto)]

mod bit_scripts;
mod bit_streams;
mod byte_reader;
mod calls;
mod fields;
mod held;
mod kinds;
mod law_calls;
mod lexed;
mod literals;
mod nests;
mod numbers;
mod own_literals;
mod pair_reader;
mod printed_texts;
mod recovery;
mod spans;
mod token_members;
mod walks;
mod wrapper_laws;
mod wrappers;

pub use bit_scripts::{BitAnswers, WrappedBits, take_by_script, take_three_at_one};
pub use bit_streams::{
    bits_at, bits_keep, place_of, slices_have_widths, take, told_bits, widths_of_one,
};
pub use byte_reader::ByteReader;
pub use calls::{tell, width_from};
pub use fields::field;
pub use held::take_while;
pub use kinds::kinds_keep;
pub use law_calls::{call_laws_of_streams, call_laws_of_views, call_laws_of_wrappers};
pub use lexed::Lexed;
pub use literals::{literal, literal_or_lack, take_through, take_until};
pub use nests::peek_complete;
pub use numbers::{located_number, located_text_number, number, text_number};
pub use own_literals::Twice;
pub use pair_reader::{PairOffsets, PairReader};
pub use printed_texts::{hexadecimal_members, text_members};
pub use recovery::{Mode, narrow_past_errors, read_inside, read_past_errors, recorded, refuses};
pub use spans::spanned;
pub use token_members::{debug_texts, tokens_keep};
pub use walks::{look_back, take_back};
pub use wrappers::{checkpoint_of, place, widths_from};
