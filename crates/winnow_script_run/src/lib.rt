//! Scripts of calls on a stream, whose answers are those of a cursor on one list.
//!
//! [`run`] runs a script of calls on any stream, and [`run_search`] a script that also compares and
//! searches. Both, and each engine for further steps, are built on one function for a step,
//! [`answer_step`], over one type of marks, [`Marks`]. The crate also defines which answers are
//! definite, so that no further input changes them, and states their law, [`definite_law`].
#![tactic(auto)]

mod answers;
mod laws;
mod marks;
mod need;
mod runs;
mod script;
mod search_steps;
mod searches;

pub use answers::answer_step;
pub use laws::{answers_law, definite_law, run_and_reset};
pub use marks::{Marks, Origin};
pub use need::Need;
pub use runs::run;
pub use script::{Answer, Step};
pub use search_steps::{PieceAnswer, SearchAnswer, SearchStep};
pub use searches::run_search;
