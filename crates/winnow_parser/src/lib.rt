//! Parsers that carry their meaning.
//!
//! A [`Parser`] reads a value from the front of a stream, or fails. Its ghost member `means`
//! relates what it may answer to what stood ahead: the tokens that remained, their location, and
//! whether more may follow. A combinator builds its meaning from those of its parts, so a grammar
//! is proved against a definition of its language. A second ghost member, `errors`, says which
//! errors the failures carry.
#![tactic(auto, using(crate::proofs::lemmas::OnwardLemmas::onward_steps))]

mod by_ref;
mod functions;
mod laws;
mod parser;
mod parsers;
mod results;
mod sequences;
mod sequences_to_ten;
mod value_test;
mod whole;

pub use functions::literal;
pub use laws::{
    determined_function_law, determined_law, determined_pair_law, determined_reading_law,
    determined_slice_law, parser_law, taken_width_law,
};
pub use parser::Parser;
pub use parsers::and_then::AndThen;
pub use parsers::context::Context;
pub use parsers::context_with::ContextWith;
pub use parsers::default_value::DefaultValue;
pub use parsers::err_into::ErrInto;
pub use parsers::flat_map::FlatMap;
pub use parsers::literal::Literal;
pub use parsers::map::Map;
pub use parsers::map_err::MapErr;
pub use parsers::output_into::OutputInto;
pub use parsers::parse_to::ParseTo;
pub use parsers::span::Span;
pub use parsers::take::Taken;
pub use parsers::try_map::TryMap;
pub use parsers::value::Value;
pub use parsers::verify::Verify;
pub use parsers::verify_map::VerifyMap;
pub use parsers::void::Void;
pub use parsers::with_span::WithSpan;
pub use parsers::with_taken::WithTaken;
pub use results::{ModalResult, WholeResult};
pub use value_test::{ByBorrow, ByValue, ValueTest};
pub use winnow_error::Failure;
