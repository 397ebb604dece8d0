//! Parsers of tokens.

pub mod laws;

pub use winnow_token::{
    Any, Literal, NoneOf, OneOf, Rest, RestLen, Take, TakeTill, TakeUntil, TakeWhile, any, literal,
    none_of, one_of, rest, rest_len, take, take_till, take_until, take_while,
};
