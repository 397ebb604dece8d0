//! The laws of parsers that are made of parsers: a law does nothing when called, and its contract
//! is the law.

pub use winnow_combinator::{
    alternative_errors_law, alternatives_law, determined_choice_law, determined_choosing_law,
    determined_end_law, determined_foldr1_law, determined_gathered_law, determined_list_law,
    determined_repeat_law, determined_row_law, determined_sequence_law, determined_till_law,
    determined_try_fold_law, determined_value_law,
};
pub use winnow_expression::{determined_expression_law, determined_fold_law};
pub use winnow_permutation::determined_permutation_law;
pub use winnow_resume::{one_record_law, without_recovery_law};
