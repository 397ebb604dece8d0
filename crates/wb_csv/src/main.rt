//! Reads comma-separated values, and writes each record as a line: its fields with commas between
//! them, in quotes only where they need them.
//!
//! The records are those of the file that is named as an argument, or of standard input, if none is
//! or it is `-`. With `--check` nothing is written. With `--columns` only some fields are, and with
//! `--to-json` each record is an array of strings. With `--ragged` records may have other numbers
//! of fields than the first one. With `--delimiter` another byte than a comma stands between the
//! fields of the input; commas stand between those that are written.
//!
//! The input is read in pieces, and a record is written as soon as its piece has been read. So the
//! longest record and one piece bound what is kept, however long the input is; `--limit` bounds the
//! longest record.
//!
//! A byte order mark of UTF-8 before the first record is skipped, and lines and columns are counted
//! from there on. One of UTF-16 or UTF-32 is refused.
//!
//! The exit status is 0, also if nothing reads the output any more; 2 if a record is malformed, has
//! a number of fields that it may not have or is too long, if a mark is refused, and for arguments
//! that are none; 3 if memory was refused; and 4 if reading or writing failed. The records before a
//! failure are written, and standard error says what is wrong, and where; in colours, if it is a
//! terminal. If reading takes longer than a second, a line there shows how far it has come.
#![tactic(auto)]

mod arguments;
mod copying;
mod failure;
mod laws;
mod lines;
mod program;
mod progress;
mod reading;
mod settings;

use crate::arguments::{NAME, matches_of, settings_of};
use crate::failure::Failure;
use crate::settings::{Layout, Settings};
use clap::ArgMatches;
use clap::error::ErrorKind;
use example_base::{Trouble, words_of};
use std::fmt;
use std::fs::File;
use std::io::{self, IsTerminal, Read};
use std::process::ExitCode;
use wb_base::{Colours, Message, Watched, can_redraw};

fn main(rt: HostRuntime) -> ExitCode {
    match words_of(&rt) {
        Ok(words) => run(&rt, words.as_slice()),
        Err(error) => match error.kind() {
            io::ErrorKind::OutOfMemory => out_of_memory(&rt),
            _ => refuse(&rt, "an argument is no UTF-8"),
        },
    }
}

// Does what the words of the command line say, and returns the status.
fn run(rt: &HostRuntime, words: &[String]) -> ExitCode {
    match matches_of(rt.alloc(), words) {
        Ok(matches) => print(rt, &matches),
        Err(error) => match error.kind() {
            ErrorKind::OutOfMemory => out_of_memory(rt),
            _ => {
                // If this cannot be written either, only the status tells.
                let _ = error.print(rt);
                ExitCode::from(error.exit_code() as u8)
            }
        },
    }
}

// Says that memory was refused, and returns the status.
fn out_of_memory(rt: &HostRuntime) -> ExitCode {
    status_of(
        rt,
        "<arguments>",
        Err(Failure::Stopped(Trouble::OutOfMemory)),
    )
}

// Says what is wrong with the arguments, and returns the status.
fn refuse<D: fmt::Display + Drop>(rt: &HostRuntime, what: D) -> ExitCode {
    let _ = eprintln!(rt; "{NAME}: {what}");
    ExitCode::from(2)
}

// Writes the records of the file that the arguments name, and returns the status.
fn print(rt: &HostRuntime, matches: &ArgMatches<'_>) -> ExitCode {
    let settings = match settings_of(rt.alloc(), matches) {
        Ok(Ok(settings)) => settings,
        Ok(Err(wrong)) => return refuse(rt, wrong),
        Err(_) => return out_of_memory(rt),
    };
    match matches.get_str("FILE") {
        None => copy_input(rt, settings),
        Some("-") => copy_input(rt, settings),
        Some(name) => status_of(rt, name, copy_file(rt, name, settings)),
    }
}

// Writes the records of standard input, and returns the status.
fn copy_input(rt: &HostRuntime, settings: Settings) -> ExitCode {
    status_of(rt, "<stdin>", copy_watched(rt, settings, rt.stdin(), None))
}

// Writes the records of a file.
fn copy_file(rt: &HostRuntime, name: &str, settings: Settings) -> Result<(), Failure> {
    match File::open(rt, name) {
        Ok(file) => {
            let length = length_of(&file);
            copy_watched(rt, settings, file, length)
        }
        Err(error) => Err(Failure::Stopped(Trouble::reading(error))),
    }
}

// Returns the length of a file, if it is one that has a length.
fn length_of(file: &File) -> Option<u64> {
    match file.metadata() {
        Ok(metadata) if metadata.is_file() => Some(metadata.len()),
        _ => None,
    }
}

// Writes the records of an input, and shows how far it has come, where that disturbs nothing.
fn copy_watched<R: Read + Drop>(
    rt: &HostRuntime,
    settings: Settings,
    input: R,
    length: Option<u64>,
) -> Result<(), Failure> {
    let is_silent = settings.layout == Layout::Nothing || !rt.stdout().is_terminal();
    let is_shown = is_silent && can_redraw(rt, &rt.stderr());
    let mut input = Watched::new(rt, input, length, is_shown);
    let answer = program::copy_records(rt.alloc(), settings, &mut input, &mut rt.stdout());
    input.wipe();
    answer
}

// Says why the program failed, and returns its status.
fn status_of(rt: &HostRuntime, file: &str, answer: Result<(), Failure>) -> ExitCode {
    match answer {
        Ok(()) => ExitCode::SUCCESS,
        Err(Failure::Stopped(trouble)) if trouble.is_quiet() => ExitCode::SUCCESS,
        Err(failure) => {
            let what = &failure;
            let excerpt = failure.excerpt();
            let message = Message {
                tool: NAME,
                file,
                position: failure.position(),
                what,
                excerpt,
                colours: Colours::of(rt, &rt.stderr()),
            };
            // If standard error cannot be written either, only the status reports the failure.
            let _ = rt.eprintln(message);
            ExitCode::from(failure.status())
        }
    }
}
