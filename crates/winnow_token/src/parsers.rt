//! The parsers: a type for each, in a file that is named for its function.

pub(crate) mod any;
pub(crate) mod none_of;
pub(crate) mod one_of;
pub(crate) mod rest;
pub(crate) mod rest_len;
pub(crate) mod take;
pub(crate) mod take_till;
pub(crate) mod take_until;
pub(crate) mod take_while;
