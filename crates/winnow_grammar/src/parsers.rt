//! The parsers: a type for each, in a file that is named for its function.

pub(crate) mod by_rule;
pub(crate) mod from_fn;
pub(crate) mod map_in;
pub(crate) mod nested;
pub(crate) mod nested_as;
pub(crate) mod part;
pub(crate) mod part_as;
