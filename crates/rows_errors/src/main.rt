//! Rows of errors: their modes, how they are joined, what is added to them, and what they print.
//!
//! A call is a type or a function, and then a question: a format, as in `InputError {:?}`, or the
//! name of a call. An error is written as the nested calls that make it.
#![tactic(auto)]

mod bits;
mod contexts;
mod errors;
mod inputs;
mod made;
mod modes;
mod parse_errors;
mod parts;
mod printed;
mod texts;
mod trees;

use rows::{Answers, Fault, Words};
use std::alloc::Global;
use std::process::ExitCode;

struct Calls;

impl Answers for Calls {
    fn answer(&self, alloc: Global, call: &str, input: &Words) -> Result<String, Fault> {
        let (family, question) = call.split_once(' ').unwrap_or((call, ""));
        match family {
            "InputError" | "EmptyError" | "()" => errors::of_plain(alloc, family, question, input),
            "ContextError" | "TreeError" => errors::of_rich(alloc, family, question, input),
            "ErrMode<InputError>" | "ErrMode<ContextError>" => {
                errors::of_modes(alloc, family, question, input)
            }
            "ErrMode" => modes::answer(alloc, question, input),
            "contexts" => contexts::answer(alloc, question, input),
            "StrContext" | "StrContextValue" => contexts::alone(alloc, family, question, input),
            "tree" | "base" | "context" => trees::answer(alloc, family, question, input),
            "input" => inputs::answer(alloc, question, input),
            "bits" => bits::answer(alloc, question, input),
            "ParseError" | "translate_position" => {
                parse_errors::answer(alloc, family, question, input)
            }
            _ => texts::answer(alloc, family, question, input),
        }
    }
}

fn main(rt: HostRuntime) -> ExitCode {
    rows::run(&rt, &Calls)
}
