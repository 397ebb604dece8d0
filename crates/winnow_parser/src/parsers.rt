//! The parsers: a type for each, in a file that is named for its function.

pub(crate) mod and_then;
pub(crate) mod context;
pub(crate) mod context_with;
pub(crate) mod default_value;
pub(crate) mod err_into;
pub(crate) mod flat_map;
pub(crate) mod literal;
pub(crate) mod map;
pub(crate) mod map_err;
pub(crate) mod output_into;
pub(crate) mod parse_to;
pub(crate) mod span;
pub(crate) mod take;
pub(crate) mod try_map;
pub(crate) mod value;
pub(crate) mod verify;
pub(crate) mod verify_map;
pub(crate) mod void;
pub(crate) mod with_span;
pub(crate) mod with_taken;
