//! Replies of version 3 of the Redis protocol, printed as `redis-cli` prints them to a terminal
//! (`printing`, with `breaking`), or as their text stands (`raw`).
#![tactic(auto)]

mod breaking;
mod printing;
mod raw;

pub use printing::append_reply;
pub use raw::append_raw;
