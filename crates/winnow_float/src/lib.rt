//! Floats in decimal digits, the nearest one of a type to each text.
#![tactic(auto, using(winnow_parser::proofs::lemmas::OnwardLemmas::onward_steps))]

mod functions;
mod if_next;
mod laws;
mod mark;
mod parsers;
mod parts;
mod text;

pub use functions::float;
pub use laws::determined_float_law;
pub use parsers::float::Float;
