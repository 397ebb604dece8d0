//! Reads CBOR (RFC 8949), and prints each item in diagnostic notation, one a line.
//!
//! The items are those of the file that is named as an argument, or of standard input, if none is
//! or it is `-`: one, or a sequence of them (RFC 8742). Each form of an item is read, or with
//! `--deterministic` only the one of section 4.2. With `--check` nothing is printed. `--depth`
//! limits within how many arrays, maps and tags an item may stand, and `--limit` how many bytes a
//! string has.
//!
//! The input is read in pieces, and an item is printed as soon as its piece has been read. So the
//! longest item and one piece bound what is kept, however long the input is.
//!
//! The exit status is 0, also if nothing reads the output any more; 2 if an item is malformed or
//! passes a limit, if the input ends inside one, and for arguments that are none; 3 if memory was
//! refused; and 4 if reading or writing failed. The items before a failure are printed, and
//! standard error says what is wrong, and how many bytes are before it.
#![tactic(auto)]

mod arguments;
mod failure;
mod printing;
mod program;
mod settings;

use crate::arguments::{NAME, matches_of, settings_of};
use crate::failure::Failure;
use crate::settings::Settings;
use clap::error::ErrorKind;
use example_base::{Trouble, words_of};
use std::fs::File;
use std::io::{self, BufWriter, IsTerminal, Read};
use std::process::ExitCode;
use wb_base::{Colours, Message, Watched, can_redraw};

fn main(rt: HostRuntime) -> ExitCode {
    match words_of(&rt) {
        Ok(words) => run(&rt, words.as_slice()),
        Err(error) => match error.kind() {
            io::ErrorKind::OutOfMemory => out_of_memory(&rt),
            _ => {
                let _ = rt.eprintln("an argument is no UTF-8");
                ExitCode::from(2)
            }
        },
    }
}

// Does what the words of the command line say, and returns the status.
fn run(rt: &HostRuntime, words: &[String]) -> ExitCode {
    match matches_of(rt.alloc(), words) {
        Ok(matches) => {
            let settings = settings_of(&matches);
            match matches.get_str("FILE") {
                None => print_input(rt, settings),
                Some("-") => print_input(rt, settings),
                Some(name) => status_of(rt, name, print_file(rt, name, settings)),
            }
        }
        Err(error) => match error.kind() {
            ErrorKind::OutOfMemory => out_of_memory(rt),
            _ => {
                // If this cannot be written either, only the status tells.
                let _ = error.print(rt);
                ExitCode::from(error.exit_code() as u8)
            }
        },
    }
}

// Says that memory was refused, and returns the status.
fn out_of_memory(rt: &HostRuntime) -> ExitCode {
    status_of(
        rt,
        "<arguments>",
        Err(Failure::Stopped(Trouble::OutOfMemory)),
    )
}

// Prints standard input, and returns the status.
fn print_input(rt: &HostRuntime, settings: Settings) -> ExitCode {
    status_of(rt, "<stdin>", print(rt, settings, rt.stdin(), None))
}

// Prints a file.
fn print_file(rt: &HostRuntime, name: &str, settings: Settings) -> Result<(), Failure> {
    match File::open(rt, name) {
        Ok(file) => {
            let length = length_of(&file);
            print(rt, settings, file, length)
        }
        Err(error) => Err(Failure::Stopped(Trouble::reading(error))),
    }
}

// Returns the length of a file, if it is one that has a length.
fn length_of(file: &File) -> Option<u64> {
    match file.metadata() {
        Ok(metadata) if metadata.is_file() => Some(metadata.len()),
        _ => None,
    }
}

// Prints what a reader reads, and shows how far it has come where the terminal shows nothing else.
fn print<R: Read + Drop>(
    rt: &HostRuntime,
    settings: Settings,
    input: R,
    length: Option<u64>,
) -> Result<(), Failure> {
    let is_silent = settings.silent || !rt.stdout().is_terminal();
    let is_shown = is_silent && can_redraw(rt, &rt.stderr());
    let mut output = match BufWriter::new(rt.alloc(), rt.stdout()) {
        Ok(output) => output,
        Err(_) => return Err(Failure::Stopped(Trouble::OutOfMemory)),
    };
    let mut input = Watched::new(rt, input, length, is_shown);
    let answer = program::print_items(rt.alloc(), settings, &mut input, &mut output);
    input.wipe();
    answer
}

// Says why the program failed, and returns its status.
fn status_of(rt: &HostRuntime, file: &str, answer: Result<(), Failure>) -> ExitCode {
    match answer {
        Ok(()) => ExitCode::SUCCESS,
        Err(Failure::Stopped(trouble)) if trouble.is_quiet() => ExitCode::SUCCESS,
        Err(failure) => {
            let message = Message {
                tool: NAME,
                file,
                position: None,
                what: &failure,
                excerpt: None,
                colours: Colours::of(rt, &rt.stderr()),
            };
            // If standard error cannot be written either, only the status reports the failure.
            let _ = rt.eprintln(message);
            ExitCode::from(failure.status())
        }
    }
}
