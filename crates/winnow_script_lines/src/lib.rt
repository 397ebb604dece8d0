//! Runs a script of stream calls that is given as lines, and returns the answers as lines.
//!
//! The first line names the kind of the input. Each line after it is a step, up to the lines of the
//! input: one line, or one for each piece if the input is in pieces. [`execute`] reads all lines,
//! runs the steps with the calls of streams, and returns a line for each answer, or the
//! [`ScriptFault`] of the first faulty line.
//!
//! [`read_kind`] reads the first line, [`read_steps`] the lines of steps after it, and
//! [`read_script_input`] or [`read_fed_lines`] the remaining lines. A script owns what is read, and
//! [`lend_steps`] lends it for a run.
//!
//! For the program, [`read_script`] reads a reader to its end, and a [`Failure`] has a text and an
//! exit status.
#![tactic(auto)]

mod contents;
mod execution;
mod failure;
mod fault;
mod fed_lines;
mod inputs;
mod lines;
mod literals;
mod loans;
mod reading;
mod report;
mod runs;
mod steps;
mod whole;
mod words;

pub use contents::{Contents, Lend};
pub use execution::execute;
pub use failure::Failure;
pub use fault::ScriptFault;
pub use fed_lines::{FedLine, read_fed_lines};
pub use inputs::{Kind, read_kind, read_script_input};
pub use lines::Lines;
pub use literals::literal;
pub use loans::lend_steps;
pub use reading::read_script;
pub use steps::{ScriptStep, read_steps};
