//! Each law is called once.
use crate::bit_streams::{bits_keep, slices_have_widths};
use crate::kinds::kinds_keep;
use crate::printed_texts::{hexadecimal_members, text_members};
use crate::recovery::Mode;
use crate::token_members::{debug_texts, tokens_keep};
use crate::wrapper_laws::{
    flag_law, lent_law, nest_law, passed_on_law, recovery_law, refusing_law, text_law, width_law,
};
use std::fmt::Display;
use winnow_kinds::{text_equality_law, text_hash_law, text_order_law};
use winnow_script_run::definite_law;
use winnow_stream::{
    NoSet, StreamIsPartial, checkpoint_equality_law, checkpoint_order_law, first_law, front_law,
    offset_law, shortage_law, slice_law, taken_law, text_law as text_source_law, text_slice_law,
};
use winnow_stream_bytes::{bytes_equality_law, bytes_hash_law, bytes_order_law};
use winnow_views::{bit_equality_law, token_compare_law, token_equality_law, token_order_law};
use winnow_wrap::{
    Partial, Stateful, flagged_equality_law, flagged_order_law, located_equality_law,
    located_order_law, stateful_equality_law, wrapper_checkpoint_equality_law,
    wrapper_checkpoint_order_law,
};

/// Calls the laws of streams and of scripts.
pub fn call_laws_of_streams() {
    front_law::<u8>();
    offset_law::<char>();
    checkpoint_equality_law::<u8>();
    checkpoint_order_law::<u8>();
    taken_law::<u8>();
    first_law::<char>();
    shortage_law::<u8>();
    slice_law::<u8>();
    text_slice_law("é1");
    text_source_law();
    definite_law::<u8, NoSet, &'static [u8]>();
}

/// Calls the laws of tokens, of bits, and of bytes with a text of their own.
pub fn call_laws_of_views() {
    debug_texts::<u8>();
    tokens_keep::<u8>();
    text_members();
    hexadecimal_members();
    kinds_keep();
    bits_keep::<&[u8]>();
    slices_have_widths();
    bit_equality_law::<&[u8]>();
    token_equality_law::<u8>();
    token_order_law::<u8>();
    token_compare_law::<u8>();
    text_equality_law();
    text_order_law();
    text_hash_law();
    bytes_equality_law();
    bytes_order_law();
    bytes_hash_law();
}

// Calls the laws of wrappers around any stream.
fn laws<I: StreamIsPartial + Ord + Display>()
where
    I::Checkpoint: Ord,
{
    located_equality_law::<I>();
    located_order_law::<I>();
    flagged_equality_law::<I>();
    flagged_order_law::<I>();
    stateful_equality_law::<I, u32>();
    wrapper_checkpoint_equality_law::<I::Checkpoint, Stateful<I, u32>>();
    wrapper_checkpoint_order_law::<I::Checkpoint, Partial<I>>();
    nest_law::<I>();
    text_law::<I, u32, Mode>();
    recovery_law::<I, Mode, Mode>();
    passed_on_law::<I, Mode>();
    flag_law::<I, u32>();
}

/// Calls the laws of wrappers.
pub fn call_laws_of_wrappers() {
    laws::<&str>();
    width_law::<&str, u32, Mode>();
    lent_law::<&str, u32>();
    refusing_law::<&[u8], u8, u32, Mode>();
}
