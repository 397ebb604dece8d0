//! Requests of SOCKS version 5 (RFC 1928, section 4), read and written by one description, with no
//! proof.
#![tactic(auto)]

mod exchange;
mod request;
mod target;

pub use exchange::{read_request, request_law, write_request};
pub use request::{Command, Request, RequestFields, request_format};
pub use target::{Target, TargetCases, target_format};
