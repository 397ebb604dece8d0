//! The laws that no other crate of laws calls.
use winnow_count::range_law;
use winnow_error::EmptyError;
use winnow_error_parse::{char_span_law, parse_error_equality_law};
use winnow_kinds::bstr_slice_law;
use winnow_match::stretch_equality_law;
use winnow_recover::{recoverable_slice_law, recoverable_text_slice_law};
use winnow_script_feed::{pieces_law, told_equality_law, waiting_equality_law};
use winnow_script_run::answers_law;
use winnow_stream::{NoSet, moving_law};
use winnow_stream_bytes::bytes_slice_law;
use winnow_wrap::{wrapper_slice_law, wrapper_text_slice_law};

/// Calls the laws of streams and their slices. Laws do nothing: the calls show that each can be
/// called.
pub fn laws_of_streams_and_slices() {
    moving_law::<u8>();
    bstr_slice_law();
    bytes_slice_law();
    wrapper_slice_law::<&'static [u8], u8>();
    wrapper_text_slice_law::<&'static str, u8>();
    recoverable_slice_law::<&'static [u8], EmptyError>();
    recoverable_text_slice_law::<&'static str, EmptyError>();
    answers_law::<&'static [u8], NoSet>();
}

/// Calls the laws of values.
pub fn laws_of_values() {
    range_law();
    pieces_law();
    stretch_equality_law();
    told_equality_law::<u8>();
    waiting_equality_law::<u8>();
    char_span_law();
    parse_error_equality_law::<u8, u8>();
}
