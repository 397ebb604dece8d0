//! Formats of values that hold values of their own type, to a depth: [`nested`].
#![tactic(auto)]

mod layered;
mod reading;
mod writing;

pub use layered::{InLayers, Layered, nested};
