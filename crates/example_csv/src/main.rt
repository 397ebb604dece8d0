//! Reads comma-separated values, and writes each record as a line: its fields with tabs between
//! them.
//!
//! The records are those of the file that is named as an argument, or of standard input, if none is
//! or it is `-`.
//!
//! The input is read in pieces, and a record is written as soon as it has been read. So the longest
//! record and one piece bound what is kept, however long the input is.
//!
//! A byte order mark before the first record is refused, since it would be part of the first field.
//! With `--skip-mark` one of UTF-8 is skipped, and lines and columns are counted from there on.
//!
//! Within a field a backslash, a tab, a line feed and a carriage return are written as `\\`, `\t`,
//! `\n` and `\r`.
//!
//! The exit status is 0, also if nothing reads the output any more; 2 if a record is malformed or
//! has another number of fields than the first one, if a mark is refused, and for arguments that
//! are none; 3 if memory was refused; and 4 if reading or writing failed. The records before a
//! failure are written, and standard error says what is wrong, and where.
#![tactic(auto)]

mod copying;
mod failure;
mod lines;
mod positions;
mod program;
mod progress;

use crate::failure::Failure;
use clap::ArgMatches;
use clap::error::ErrorKind;
use example_base::{Program, Trouble, words_of};
use std::fs::File;
use std::io::{self, BufWriter};
use std::process::ExitCode;

const PROGRAM: Program = Program {
    name: "example_csv",
    about: "Writes records of comma-separated values, each as a line",
    depth: None,
    mark: Some("Skip a byte order mark of UTF-8 before the first record"),
};

fn main(rt: HostRuntime) -> ExitCode {
    match words_of(&rt) {
        Ok(words) => run(&rt, words.as_slice()),
        Err(error) => match error.kind() {
            io::ErrorKind::OutOfMemory => out_of_memory(&rt),
            _ => {
                let _ = rt.eprintln("an argument is no UTF-8");
                ExitCode::from(2)
            }
        },
    }
}

// Does what the words of the command line say, and returns the status.
fn run(rt: &HostRuntime, words: &[String]) -> ExitCode {
    match PROGRAM.matches(rt.alloc(), words) {
        Ok(matches) => status_of(rt, print(rt, &matches)),
        Err(error) => match error.kind() {
            ErrorKind::OutOfMemory => out_of_memory(rt),
            _ => {
                // If this cannot be written either, only the status tells.
                let _ = error.print(rt);
                ExitCode::from(error.exit_code() as u8)
            }
        },
    }
}

// Says that memory was refused, and returns the status.
fn out_of_memory(rt: &HostRuntime) -> ExitCode {
    status_of(rt, Err(Failure::Stopped(Trouble::OutOfMemory)))
}

// Writes the records that the arguments name.
fn print(rt: &HostRuntime, matches: &ArgMatches<'_>) -> Result<(), Failure> {
    let mut output = match BufWriter::new(rt.alloc(), rt.stdout()) {
        Ok(output) => output,
        Err(error) => return Err(Failure::Stopped(Trouble::writing(error))),
    };
    let skips_mark = matches.get_flag("skip-mark");
    match matches.get_str("FILE") {
        None => program::copy_records(rt.alloc(), skips_mark, &mut rt.stdin(), &mut output),
        Some("-") => program::copy_records(rt.alloc(), skips_mark, &mut rt.stdin(), &mut output),
        Some(name) => match File::open(rt, name) {
            Ok(mut file) => program::copy_records(rt.alloc(), skips_mark, &mut file, &mut output),
            Err(error) => Err(Failure::Stopped(Trouble::reading(error))),
        },
    }
}

// Says why the program failed, and returns its status.
fn status_of(rt: &HostRuntime, answer: Result<(), Failure>) -> ExitCode {
    match answer {
        Ok(()) => ExitCode::SUCCESS,
        Err(Failure::Stopped(trouble)) if trouble.is_quiet() => ExitCode::SUCCESS,
        Err(failure) => {
            let status = failure.status();
            // If standard error cannot be written either, only the status reports the failure.
            let _ = rt.eprintln(failure);
            ExitCode::from(status)
        }
    }
}
