//! The laws of streams, sets, counts, scripts and feeds: a law does nothing when called, and its
//! contract is the law.

pub use winnow_count::{number_law, parse_slice_law, range_law};
pub use winnow_kinds::{bstr_slice_law, text_equality_law, text_hash_law, text_order_law};
pub use winnow_match::{
    byte_hit_law, compare_law, compare_more_law, definite_hit_law, find_law, find_more_law,
    stretch_equality_law, stretch_law,
};
pub use winnow_recover::{recoverable_slice_law, recoverable_text_slice_law};
pub use winnow_script_feed::{
    one_search_law, pieces_law, told_equality_law, told_law, waiting_equality_law,
};
pub use winnow_script_run::{answers_law, definite_law};
pub use winnow_sets::{union_law, union_of_four_law, union_of_three_law};
pub use winnow_stream::{
    byte_slice_law, checkpoint_equality_law, checkpoint_order_law, first_law, front_law, held_law,
    moving_law, offset_law, shortage_law, slice_bytes_law, slice_law, span_law, taken_law,
    text_law, text_slice_law,
};
pub use winnow_stream_bytes::{
    bytes_equality_law, bytes_hash_law, bytes_order_law, bytes_slice_law,
};
pub use winnow_views::{token_compare_law, token_equality_law, token_order_law};
pub use winnow_wrap::{
    flagged_equality_law, flagged_order_law, located_equality_law, located_order_law,
    stateful_equality_law, wrapper_checkpoint_equality_law, wrapper_checkpoint_order_law,
    wrapper_slice_law, wrapper_text_slice_law,
};
