//! Reads JSON, and writes each value as an assignment to its path, one a line.
//!
//! The text is that of the file that is named as an argument, or of standard input, if none is or
//! it is `-`. Of an array or an object that begins, the brackets are written. With `--values` each
//! text is written without blanks on one line, and with `--check` nothing is written. With
//! `--lines` each line is a text of its own, and an element of one array; blank lines are passed
//! over. `--depth N` limits within how many arrays and objects a value may stand, which are 128 at
//! most otherwise, and `--limit N` how many bytes a token may have.
//!
//! A path begins with `json`. A name that is an identifier follows a point, any other name is a
//! string in brackets, and so is the index of an element, counted from 0. Strings are written with
//! escapes for quotes, backslashes and control characters alone, and numbers as they stand in the
//! text.
//!
//! The input is read in pieces, and a value is written as soon as its piece has been read. So the
//! longest token, the path and one piece bound what is kept, however long the input is; `--limit`
//! bounds the first of these.
//!
//! The exit status is 0, also if nothing reads the output any more; 2 if a text is no JSON, is too
//! deep or ends early, if a token is too long, and for arguments that are none; 3 if memory was
//! refused; and 4 if reading or writing failed. The values before a failure are written, and
//! standard error says what is wrong, and where.
#![tactic(auto)]

mod arguments;
mod failure;
mod lines;
mod path;
mod printing;
mod program;
mod settings;
mod splitting;
mod taking;
mod window;

use crate::arguments::{NAME, matches_of, settings_of};
use crate::failure::Failure;
use crate::settings::{Layout, Settings};
use clap::error::ErrorKind;
use example_base::{Trouble, words_of};
use std::fs::File;
use std::io::{self, BufWriter, IsTerminal, Read};
use std::process::ExitCode;
use wb_base::{Colours, Message, Watched, can_redraw};

fn main(rt: HostRuntime) -> ExitCode {
    match words_of(&rt) {
        Ok(words) => run(&rt, words.as_slice()),
        Err(error) => match error.kind() {
            io::ErrorKind::OutOfMemory => out_of_memory(&rt),
            _ => {
                let _ = rt.eprintln("an argument is no UTF-8");
                ExitCode::from(2)
            }
        },
    }
}

// Does what the words of the command line say, and returns the status.
fn run(rt: &HostRuntime, words: &[String]) -> ExitCode {
    match matches_of(rt.alloc(), words) {
        Ok(matches) => match settings_of(&matches) {
            Some(settings) => print_named(rt, matches.get_str("FILE"), settings),
            None => refuse(rt, "a token has at least 1 byte"),
        },
        Err(error) => match error.kind() {
            ErrorKind::OutOfMemory => out_of_memory(rt),
            _ => {
                // If this cannot be written either, only the status tells.
                let _ = error.print(rt);
                ExitCode::from(error.exit_code() as u8)
            }
        },
    }
}

// Says that memory was refused, and returns the status.
fn out_of_memory(rt: &HostRuntime) -> ExitCode {
    status_of(
        rt,
        "<arguments>",
        Err(Failure::Stopped(Trouble::OutOfMemory)),
    )
}

// Says what is wrong with the arguments, and returns the status.
fn refuse(rt: &HostRuntime, what: &str) -> ExitCode {
    let _ = eprintln!(rt; "{NAME}: {what}");
    ExitCode::from(2)
}

// Prints the file of this name, or standard input, and returns the status.
fn print_named(rt: &HostRuntime, name: Option<&str>, settings: Settings) -> ExitCode {
    match name {
        None => print_input(rt, settings),
        Some("-") => print_input(rt, settings),
        Some(name) => status_of(rt, name, print_file(rt, name, settings)),
    }
}

// Prints standard input, and returns the status.
fn print_input(rt: &HostRuntime, settings: Settings) -> ExitCode {
    status_of(rt, "<stdin>", print(rt, settings, rt.stdin(), None))
}

// Prints a file.
fn print_file(rt: &HostRuntime, name: &str, settings: Settings) -> Result<(), Failure> {
    match File::open(rt, name) {
        Ok(file) => {
            let length = length_of(&file);
            print(rt, settings, file, length)
        }
        Err(error) => Err(Failure::Stopped(Trouble::reading(error))),
    }
}

// Returns the length of a file, if it is one that has a length.
fn length_of(file: &File) -> Option<u64> {
    match file.metadata() {
        Ok(metadata) if metadata.is_file() => Some(metadata.len()),
        _ => None,
    }
}

// Prints what a reader reads, and shows how far it has come where the terminal shows nothing else.
fn print<R: Read + Drop>(
    rt: &HostRuntime,
    settings: Settings,
    input: R,
    length: Option<u64>,
) -> Result<(), Failure> {
    let is_silent = settings.layout == Layout::Nothing || !rt.stdout().is_terminal();
    let is_shown = is_silent && can_redraw(rt, &rt.stderr());
    let mut output = match BufWriter::new(rt.alloc(), rt.stdout()) {
        Ok(output) => output,
        Err(_) => return Err(Failure::Stopped(Trouble::OutOfMemory)),
    };
    let mut input = Watched::new(rt, input, length, is_shown);
    let answer = program::print_events(rt.alloc(), settings, &mut input, &mut output);
    input.wipe();
    answer
}

// Says why the program failed, and returns its status.
fn status_of(rt: &HostRuntime, file: &str, answer: Result<(), Failure>) -> ExitCode {
    match answer {
        Ok(()) => ExitCode::SUCCESS,
        Err(Failure::Stopped(trouble)) if trouble.is_quiet() => ExitCode::SUCCESS,
        Err(failure) => {
            let what = &failure;
            let excerpt = failure.excerpt();
            let message = Message {
                tool: NAME,
                file,
                position: failure.position(),
                what,
                excerpt,
                colours: Colours::of(rt, &rt.stderr()),
            };
            // If standard error cannot be written either, only the status reports the failure.
            let _ = rt.eprintln(message);
            ExitCode::from(failure.status())
        }
    }
}
