//! Parsers of tokens: one of a set, a number of them, those in a set, a literal, and the rest.
#![tactic(auto, using(winnow_parser::proofs::lemmas::OnwardLemmas::onward_steps))]

mod counts;
mod functions;
mod laws;
mod parsers;

pub use functions::{
    any, none_of, one_of, rest, rest_len, take, take_till, take_until, take_while,
};
pub use laws::{count_law, determined_token_law, hits_stay_law, prompt_law};
pub use parsers::any::Any;
pub use parsers::none_of::NoneOf;
pub use parsers::one_of::OneOf;
pub use parsers::rest::Rest;
pub use parsers::rest_len::RestLen;
pub use parsers::take::Take;
pub use parsers::take_till::TakeTill;
pub use parsers::take_until::TakeUntil;
pub use parsers::take_while::TakeWhile;
pub use winnow_parser::{Literal, literal};
