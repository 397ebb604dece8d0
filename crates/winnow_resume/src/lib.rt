//! Parsers that go on after a failure: it is recorded, and a recovery skips what is damaged.
#![tactic(auto, using(winnow_parser::proofs::lemmas::OnwardLemmas::onward_steps))]

mod attempt;
mod following;
mod laws;
mod parsers;
mod recovering_parser;

pub use laws::{one_record_law, without_recovery_law};
pub use parsers::resume_after::{ResumeAfter, resume_after};
pub use parsers::retry_after::{RetryAfter, retry_after};
pub use recovering_parser::RecoveringParser;
