//! Parsers of binary formats: numbers of a fixed number of bytes, numbers of a few bits each that
//! fill whole bytes together, and parts that a count comes before.
#![tactic(auto, using(winnow_parser::proofs::lemmas::OnwardLemmas::onward_steps))]

mod binary_number;
mod bit_laws;
mod bit_number;
mod bit_widths;
mod endianness;
mod floats;
mod laws;
mod length;
mod next_number;
mod numbers;
mod parsers;
mod sixteen_bytes;
mod three_bytes;

pub use binary_number::BinaryNumber;
pub use bit_laws::{bit_fields_law, determined_bit_fields_law};
pub use endianness::{Endianness, Width};
pub use floats::{be_f32, be_f64, f32, f64, le_f32, le_f64};
pub use laws::{binary_number_law, determined_length_law, determined_slice_read_law};
pub use length::Length;
pub use numbers::{
    Numeral, be_i8, be_i16, be_i32, be_i64, be_u8, be_u16, be_u32, be_u64, i8, i16, i32, i64,
    le_i8, le_i16, le_i32, le_i64, le_u8, le_u16, le_u32, le_u64, u8, u16, u32, u64,
};
pub use parsers::bit_fields::{BitFields, be_bit_fields, bit_fields, le_bit_fields};
pub use parsers::length_and_then::{LengthAndThen, length_and_then};
pub use parsers::length_repeat::{LengthRepeat, length_repeat};
pub use parsers::length_take::{LengthTake, length_take};
pub use sixteen_bytes::{
    SixteenByteNumber, SixteenByteNumeral, be_i128, be_u128, i128, le_i128, le_u128, u128,
};
pub use three_bytes::{
    ThreeByteNumber, ThreeByteNumeral, be_i24, be_u24, i24, le_i24, le_u24, u24,
};
