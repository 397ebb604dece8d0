//! What programs over readers share: the arguments that they take, and the words in which they
//! say that memory was refused, or that reading or writing failed.
#![tactic(auto)]

mod arguments;
mod driving;
mod trouble;

pub use arguments::{Program, words_of};
pub use driving::{Driven, drive, new_buffer, read_piece};
pub use trouble::{Reason, Trouble};
