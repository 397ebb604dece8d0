//! A part of a slice that keeps the whole slice: [`Window`], on which streams over slices are
//! built.
#![tactic(auto)]

mod parts;
mod window;

pub use window::Window;
