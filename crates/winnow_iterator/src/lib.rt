//! The values of a parser as an iterator: [`iterator`] reads one value after another, as a `for`
//! loop or a method of `Iterator` asks for them, and gathers none itself.
#![tactic(auto)]

mod parser_iterator;

pub use parser_iterator::{ParserIterator, iterator};
