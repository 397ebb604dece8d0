//! Messages of the domain name system (RFC 1035), read and written by one description.
//!
//! [`read_message`] and [`write_message`] keep names as a message spells them, with the pointers
//! that compress it, so that what is read is written back, byte for byte ([`message_law`]). The
//! data of a record are bytes.
//!
//! A name has at most 127 labels, each of 1 to 63 bytes, and then the root or a pointer. [`expand`]
//! follows the pointers of a name through its message, each further back than the one before it,
//! and refuses a name of more than 255 bytes; reading and writing a message does not look where
//! pointers lead.
#![tactic(auto)]

mod entries;
mod exchange;
mod expansion;
mod flags;
mod message;
mod name;
mod name_format;
mod parts;

pub use entries::{Question, QuestionFields, Record, RecordFields, questions, records};
pub use exchange::{message_law, read_message, write_message};
pub use expansion::{Unexpanded, expand};
pub use message::{Header, HeaderFormat, Message, Sections, headers, messages};
pub use name::{Ending, Name};
pub use name_format::{NameFormat, names};
pub use parts::{NamePart, PartAfter, name_parts};
