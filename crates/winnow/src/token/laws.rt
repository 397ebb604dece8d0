//! The laws of parsers of tokens: a law does nothing when called, and its contract is the law.

pub use winnow_token::{count_law, determined_token_law, hits_stay_law, prompt_law};
