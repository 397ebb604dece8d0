//! Replies of the Redis protocol, version 3 (RESP3): which bytes spell a reply, and a writer.
//!
//! A reply is one of version 2, or of the kinds that version 3 adds: null, a truth value, a double,
//! a big number, a bulk error, a verbatim text, a map, a set, what is pushed, and a reply with
//! attributes. Integers and numbers of what follows are written as std writes them, so `:+5` spells
//! nothing; doubles and big numbers are kept as their texts, so none is rounded. Strings and
//! aggregates that come in parts (`$?`, `*?`) are not there.
//!
//! `reply` has the type. `layers` takes a reply apart: its first line, what it holds after that,
//! and the replies inside. `texts` says which texts are numbers, `lines` appends a first line,
//! `writing` a reply with those inside, to a depth, and `format` has the limits and the promises.
#![tactic(auto)]

mod format;
mod layers;
mod lines;
mod reply;
mod texts;
mod writing;

pub use format::{ReplyFormat, reply_law, write_reply};
pub use reply::Reply;
