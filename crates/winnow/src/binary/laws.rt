//! The laws of parsers of binary formats: a law does nothing when called, and its contract is the
//! law.

pub use winnow_binary::{
    binary_number_law, bit_fields_law, determined_bit_fields_law, determined_length_law,
    determined_slice_read_law,
};
