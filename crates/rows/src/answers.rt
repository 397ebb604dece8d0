//! The calls that a program of rows makes, and why a row has no answer.
use crate::Words;
use std::alloc::{AllocError, Global};

/// Why a row has no answer.
#[derive(Debug, Drop)]
pub enum Fault {
    /// No call has this name, or none takes such an input.
    NoSuchCall,
    OutOfMemory,
}

impl From<AllocError> for Fault {
    fn from(_error: AllocError) -> Fault {
        Fault::OutOfMemory
    }
}

/// The calls that rows name.
pub trait Answers {
    /// Makes a call on an input, and returns its answer as text.
    fn answer(&self, alloc: Global, call: &str, input: &Words) -> Result<String, Fault>;
}
