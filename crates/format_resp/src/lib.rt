//! Replies of the Redis protocol, version 2 (RESP): a parser that is proved against the protocol's
//! own definition, and a writer.
//!
//! A reply is a simple string, an error, an integer, a bulk string or an array of replies. It
//! begins with a byte for its kind, and each of its lines ends with a carriage return and a
//! newline.
//!
//! `reply` has the type that is read. `numbers` reads the integers and lengths of lines, `lines`
//! the parts of a reply, and `grammar` whole replies: `read_layer` is one level of the grammar,
//! generic in the parser of the replies in an array, and `read_nested` ties the levels together.
//! `writing` is the writer, `causes` finds what is wrong where a reply breaks off, and `laws` says
//! that what is written is read back, and that a cause stays. `reading` reads one reply after the
//! other from bytes that come in pieces, and `scan` goes over each byte of them once, in the arrays
//! that `wanted` counts and the numbers that `digits` keeps.
#![tactic(auto, using(winnow_parser::proofs::lemmas::OnwardLemmas::onward_steps))]

mod causes;
mod digits;
mod grammar;
mod laws;
mod lines;
mod numbers;
mod reading;
mod reply;
mod scan;
mod wanted;
mod writing;

pub use causes::{Cause, cause_of};
pub use grammar::ReplyTo;
pub use laws::{cause_law, spelling_law};
pub use reading::read_reply;
pub use reply::Reply;
pub use scan::ReplyScan;
pub use writing::{Unwritten, write_reply};
