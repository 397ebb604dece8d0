//! Parsers of binary formats: numbers of bytes and of bits, and the bits of a stream of bytes.

pub mod laws;

pub use winnow_base::binary::bits;
pub use winnow_binary::{
    BinaryNumber, BitFields, Endianness, Length, LengthAndThen, LengthRepeat, LengthTake, Numeral,
    SixteenByteNumber, SixteenByteNumeral, ThreeByteNumber, ThreeByteNumeral, Width, be_bit_fields,
    be_f32, be_f64, be_i8, be_i16, be_i24, be_i32, be_i64, be_i128, be_u8, be_u16, be_u24, be_u32,
    be_u64, be_u128, bit_fields, f32, f64, i8, i16, i24, i32, i64, i128, le_bit_fields, le_f32,
    le_f64, le_i8, le_i16, le_i24, le_i32, le_i64, le_i128, le_u8, le_u16, le_u24, le_u32, le_u64,
    le_u128, length_and_then, length_repeat, length_take, u8, u16, u24, u32, u64, u128,
};
