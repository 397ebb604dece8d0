//! Rows of scripts that are fed in pieces.
//!
//! A row names the kind of the input, the steps, and the pieces. The steps are lines of the
//! program, with `; ` between them in place of a newline.
#![tactic(auto)]

mod asked;
mod feeds;
mod scripts;

use rows::{Answers, Fault, Words};
use std::alloc::Global;
use std::process::ExitCode;

// The calls of this program.
struct Calls;

impl Answers for Calls {
    fn answer(&self, alloc: Global, call: &str, input: &Words) -> Result<String, Fault> {
        match input.plain(0)? {
            "bytes" => scripts::of_bytes(alloc, call, input),
            "text" => scripts::of_text(alloc, call, input),
            _ => Err(Fault::NoSuchCall),
        }
    }
}

fn main(rt: HostRuntime) -> ExitCode {
    rows::run(&rt, &Calls)
}
