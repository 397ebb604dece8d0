//! Sets of tokens: the bytes or characters that a parser accepts.
//!
//! [`AsChar`] gives a token's character: a byte stands for the character of its number.
//! [`ContainsToken`] is the trait of every set: characters, ranges, slices and arrays, [`CharSet`],
//! closures under [`Where`], tuples, which are unions, and [`Complement`]. All but closures are
//! [`FixedSet`]s, so generic code knows what they hold.
#![tactic(auto)]

mod as_char;
mod char_set;
mod closures;
mod complement;
mod contains_token;
mod fixed_ranges;
mod fixed_set;
mod fixed_unions;
mod laws;
mod members;
mod ranges;
mod unions;

pub use as_char::AsChar;
pub use char_set::CharSet;
pub use closures::Where;
pub use complement::Complement;
pub use contains_token::ContainsToken;
pub use fixed_set::FixedSet;
pub use laws::{union_law, union_of_four_law, union_of_three_law};
