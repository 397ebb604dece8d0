//! Reads replies of the Redis protocol, in pieces of what each read gives, and prints each one.
//!
//! `placed` is the record that is read: a reply, and how far its bytes move a position. `positions`
//! counts bytes, lines, columns and characters. `layout` says how a reply is printed: as
//! `redis-cli` prints it to a terminal (`printing`, of `lines`), as its text stands (`raw`), or not
//! at all. `session` is the loop over the pieces, and `failure` says why it stops.
#![tactic(auto)]

mod failure;
mod layout;
mod lines;
mod placed;
mod positions;
mod printing;
mod raw;
mod session;

pub use failure::Failure;
pub use layout::Layout;
pub use lines::{
    append_entry_start, append_integer, append_line, append_quoted, digits_of, widened,
};
pub use placed::{Placed, PlacedReply};
pub use positions::Position;
pub use raw::{append_bytes, append_number, append_separator};
pub use session::{print_replies, write_out};
