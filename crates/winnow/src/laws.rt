//! The laws of all parsers: a law does nothing when called, and its contract is the law.

pub use winnow_parser::{
    determined_function_law, determined_law, determined_pair_law, determined_reading_law,
    determined_slice_law, parser_law, taken_width_law,
};
