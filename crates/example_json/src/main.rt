//! Reads a JSON text, in pieces of what each read gives, and writes each event as a line, as soon
//! as its bytes are there.
//!
//! The text is that of the file that is named as an argument, or of standard input, if none is or
//! it is `-`. `--depth N` limits within how many arrays and objects a value may stand, which are
//! 128 at most otherwise.
//!
//! A line is a bracket, the name of a member with a colon, or a value that is no array and no
//! object, after two spaces for each array and object that it stands in. Names and strings are
//! written as JSON writes them, with escapes for quotes, backslashes and control characters alone,
//! and numbers as they stand in the text.
//!
//! `program` is the loop over the pieces, `printing` is an event as a line, `positions` counts
//! lines and columns, and `failure` says why the program stops.
//!
//! The exit status is 0 at the end of a whole text, and where nothing reads the output any more; 2
//! where the text is damaged or ends early, and for arguments that are none; 3 if memory was
//! refused; and 4 if reading or writing failed. The events before a failure are written, and
//! standard error says what is wrong, and where. The longest token and one piece bound the memory,
//! however long the text is.
#![tactic(auto)]

mod failure;
mod positions;
mod printing;
mod program;

use crate::failure::Failure;
use clap::ArgMatches;
use clap::error::ErrorKind;
use example_base::{Program, Trouble, words_of};
use std::fs::File;
use std::io;
use std::process::ExitCode;

// Within how many arrays and objects a value may stand where no argument says it.
const DEPTH: usize = 128;

const PROGRAM: Program = Program {
    name: "example_json",
    about: "Writes the events of a JSON text, each as a line",
    depth: Some("Within how many arrays and objects a value may stand, 128 otherwise"),
    mark: None,
};

fn main(rt: HostRuntime) -> ExitCode {
    match words_of(&rt) {
        Ok(words) => run(&rt, words.as_slice()),
        Err(error) => match error.kind() {
            io::ErrorKind::OutOfMemory => out_of_memory(&rt),
            _ => {
                let _ = rt.eprintln("an argument is no UTF-8");
                ExitCode::from(2)
            }
        },
    }
}

// Does what the words of the command line say, and returns the status.
fn run(rt: &HostRuntime, words: &[String]) -> ExitCode {
    match PROGRAM.matches(rt.alloc(), words) {
        Ok(matches) => status_of(rt, print(rt, &matches)),
        Err(error) => match error.kind() {
            ErrorKind::OutOfMemory => out_of_memory(rt),
            _ => {
                // If this cannot be written either, only the status tells.
                let _ = error.print(rt);
                ExitCode::from(error.exit_code() as u8)
            }
        },
    }
}

// Says that memory was refused, and returns the status.
fn out_of_memory(rt: &HostRuntime) -> ExitCode {
    status_of(rt, Err(Failure::Stopped(Trouble::OutOfMemory)))
}

// Prints the events of the text that the arguments name.
fn print(rt: &HostRuntime, matches: &ArgMatches<'_>) -> Result<(), Failure> {
    let depth = match matches.get_one::<usize>("depth") {
        Some(depth) => depth,
        None => DEPTH,
    };
    match matches.get_str("FILE") {
        None => program::print_events(rt.alloc(), depth, &mut rt.stdin(), &mut rt.stdout()),
        Some("-") => program::print_events(rt.alloc(), depth, &mut rt.stdin(), &mut rt.stdout()),
        Some(name) => match File::open(rt, name) {
            Ok(mut file) => program::print_events(rt.alloc(), depth, &mut file, &mut rt.stdout()),
            Err(error) => Err(Failure::Stopped(Trouble::reading(error))),
        },
    }
}

// Says why the program failed, and returns its status.
fn status_of(rt: &HostRuntime, answer: Result<(), Failure>) -> ExitCode {
    match answer {
        Ok(()) => ExitCode::SUCCESS,
        Err(Failure::Stopped(trouble)) if trouble.is_quiet() => ExitCode::SUCCESS,
        Err(failure) => {
            let status = failure.status();
            // If standard error cannot be written either, only the status reports the failure.
            let _ = rt.eprintln(failure);
            ExitCode::from(status)
        }
    }
}
