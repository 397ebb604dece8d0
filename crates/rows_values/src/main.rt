//! Rows of ranges of counts, of sizes, of values that are read from slices, and of accumulators.
#![tactic(auto)]

mod counts;
mod gathered;
mod items;
mod readings;
mod rooms;
mod sizes;

use rows::{Answers, Fault, Words};
use std::alloc::Global;
use std::process::ExitCode;

// The calls of this program.
struct Calls;

impl Answers for Calls {
    fn answer(&self, alloc: Global, call: &str, input: &Words) -> Result<String, Fault> {
        match call {
            "parse_slice" => readings::parse_slice(alloc, input),
            "to_usize" => sizes::to_usize(alloc, input),
            "accumulate" => gathered::accumulate(alloc, input),
            "rooms" => rooms::rooms(alloc, input),
            _ => counts::answer(alloc, call, input),
        }
    }
}

fn main(rt: HostRuntime) -> ExitCode {
    rows::run(&rt, &Calls)
}
