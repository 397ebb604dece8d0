//! Reads replies of the Redis protocol, in pieces of what each read gives, and prints each one as
//! `redis-cli` prints it to a terminal.
//!
//! The replies are those of the file that is named as an argument, or of standard input, if none is
//! or it is `-`. `--depth N` limits within how many arrays a reply may stand, which are 32 at most
//! otherwise.
//!
//! Of `INFO`, `CLIENT LIST`, `LOLWUT`, `MEMORY DOCTOR` and some other commands `redis-cli` prints
//! the text of the reply as it is, since it knows the command. This program sees replies alone, and
//! prints each of them with quotes and escapes.
//!
//! `program` prints them, by the crate `wb_replies`, which the tool `wb-resp` shares. `told` is
//! what it says of a failure.
//!
//! The exit status is 0 at the end of the input, and where nothing reads the output any more; 2
//! where no reply stands or the input ends inside a reply, and for arguments that are none; 3 if
//! memory was refused; and 4 if reading or writing failed. What was read before is printed in each
//! case. The longest reply and one piece bound the memory.
#![tactic(auto)]

mod program;
mod told;

use crate::told::Told;
use clap::ArgMatches;
use clap::error::ErrorKind;
use example_base::{Program, Trouble, words_of};
use format_resp::ReplyTo;
use std::fs::File;
use std::io;
use std::process::ExitCode;
use wb_replies::Failure;

// The limits where no argument says otherwise.
const LIMITS: ReplyTo = ReplyTo {
    // Calls are nested as deep as arrays, so this bounds the stack. Replies of the server's own
    // commands are not a quarter as deep.
    depth: 32,
    // The server's own limit on a string, if its configuration names no other.
    longest: 512 * 1024 * 1024,
};

const PROGRAM: Program = Program {
    name: "example_resp",
    about: "Prints replies of the Redis protocol as redis-cli does",
    depth: Some("Within how many arrays a reply may stand, 32 otherwise"),
    mark: None,
};

fn main(rt: HostRuntime) -> ExitCode {
    match words_of(&rt) {
        Ok(words) => run(&rt, words.as_slice()),
        Err(error) => match error.kind() {
            io::ErrorKind::OutOfMemory => out_of_memory(&rt),
            _ => {
                let _ = rt.eprintln("an argument is no UTF-8");
                ExitCode::from(2)
            }
        },
    }
}

// Does what the words of the command line say, and returns the status.
fn run(rt: &HostRuntime, words: &[String]) -> ExitCode {
    match PROGRAM.matches(rt.alloc(), words) {
        Ok(matches) => status_of(rt, print(rt, &matches)),
        Err(error) => match error.kind() {
            ErrorKind::OutOfMemory => out_of_memory(rt),
            _ => {
                // If this cannot be written either, only the status tells.
                let _ = error.print(rt);
                ExitCode::from(error.exit_code() as u8)
            }
        },
    }
}

// Says that memory was refused, and returns the status.
fn out_of_memory(rt: &HostRuntime) -> ExitCode {
    status_of(rt, Err(Failure::Stopped(Trouble::OutOfMemory)))
}

// Prints the replies that the arguments name.
fn print(rt: &HostRuntime, matches: &ArgMatches<'_>) -> Result<(), Failure> {
    let limits = match matches.get_one::<usize>("depth") {
        Some(depth) => ReplyTo {
            depth,
            longest: LIMITS.longest,
        },
        None => LIMITS,
    };
    match matches.get_str("FILE") {
        None => program::print_replies(rt.alloc(), limits, &mut rt.stdin(), &mut rt.stdout()),
        Some("-") => program::print_replies(rt.alloc(), limits, &mut rt.stdin(), &mut rt.stdout()),
        Some(name) => match File::open(rt, name) {
            Ok(mut file) => program::print_replies(rt.alloc(), limits, &mut file, &mut rt.stdout()),
            Err(error) => Err(Failure::Stopped(Trouble::reading(error))),
        },
    }
}

// Says why the program failed, and returns its status.
fn status_of(rt: &HostRuntime, answer: Result<(), Failure>) -> ExitCode {
    match answer {
        Ok(()) => ExitCode::SUCCESS,
        Err(Failure::Stopped(trouble)) if trouble.is_quiet() => ExitCode::SUCCESS,
        Err(failure) => {
            let status = failure.status();
            // If standard error cannot be written either, only the status reports the failure.
            let _ = rt.eprintln(Told { failure });
            ExitCode::from(status)
        }
    }
}
