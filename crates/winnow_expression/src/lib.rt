//! Expressions with operators before, between and after their operands, each of a binding power.
#![tactic(auto, using(winnow_parser::proofs::lemmas::OnwardLemmas::onward_steps))]

mod functions;
mod laws;
mod level;
mod operators;
mod parsers;
mod turn;

pub use functions::expression;
pub use laws::{determined_expression_law, determined_fold_law};
pub use level::Level;
pub use operators::{Infix, Postfix, Prefix};
pub use parsers::expression::Expression;
pub use parsers::infixes::{InfixBy, InfixOperators};
pub use parsers::unaries::{NoOperators, PostfixBy, PrefixBy, UnaryOperators};
