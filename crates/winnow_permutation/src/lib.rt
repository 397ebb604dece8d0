//! Parsers in any order, each once.
#![tactic(auto, using(winnow_parser::proofs::lemmas::OnwardLemmas::onward_steps))]

mod after_turn;
mod functions;
mod laws;
mod parsers;
mod tried;
mod turns;

pub use functions::permutation;
pub use laws::determined_permutation_law;
pub use parsers::permutation::Permutation;
