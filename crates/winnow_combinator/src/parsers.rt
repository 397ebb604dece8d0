//! The parsers: a type for each, in a file that is named for its function.

pub(crate) mod alt;
pub(crate) mod alt_of_many;
pub(crate) mod alt_to_seven;
pub(crate) mod alt_to_ten;
pub(crate) mod backtrack_err;
pub(crate) mod cond;
pub(crate) mod cut_err;
pub(crate) mod delimited;
pub(crate) mod empty;
pub(crate) mod eof;
pub(crate) mod fail;
pub(crate) mod not;
pub(crate) mod opt;
pub(crate) mod peek;
pub(crate) mod preceded;
pub(crate) mod repeat;
pub(crate) mod repeat_till;
pub(crate) mod separated;
pub(crate) mod separated_foldl1;
pub(crate) mod separated_foldr1;
pub(crate) mod separated_pair;
pub(crate) mod terminated;
pub(crate) mod try_fold;
pub(crate) mod verify_fold;
