//! Rows of sets of tokens, of comparison and of search.
#![tactic(auto)]

mod char_sets;
mod classes;
mod comparisons;
mod hits;
mod movers;
mod needles;
mod sameness;
mod sets;
mod unions;

use rows::{Answers, Fault, Words};
use std::alloc::Global;
use std::process::ExitCode;

// The calls of this program.
struct Calls;

impl Answers for Calls {
    fn answer(&self, alloc: Global, call: &str, input: &Words) -> Result<String, Fault> {
        match call {
            "contains_token" => sets::contains_token(alloc, input),
            "holds" => char_sets::script_held(alloc, input),
            "any_byte" | "any_char" | "CharSet" => char_sets::answer(alloc, call, input),
            "Where" => char_sets::closure_text(alloc, input),
            "compare" => comparisons::compare(alloc, input),
            "find_slice" => hits::find_slice(alloc, input),
            "find_slice near and far" => hits::find_slice_in_letters(alloc, input),
            "stretch" => movers::movers(alloc, input),
            "longest" => movers::longest(alloc, input),
            "Needles" => movers::text(alloc, input),
            _ => classes::answer(alloc, call, input),
        }
    }
}

fn main(rt: HostRuntime) -> ExitCode {
    rows::run(&rt, &Calls)
}
