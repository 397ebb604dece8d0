//! Prints a message of the domain name system (RFC 1035), with its names whole and the data of the
//! common records as a zone file has them.
//!
//! The message is that of the file that is named as an argument, or of standard input, if none is
//! or it is `-`: its bytes alone, as a datagram has them. `--write` writes the message anew in
//! place of that, byte for byte as it was read.
//!
//! `format_dns` reads the message, and `expand` follows the pointers of its names. What this
//! program prints is tested, and its safety proved.
//!
//! The exit status is 0 where a message stands there and its names are whole, 2 where it does not,
//! or arguments are none; 3 if memory was refused; and 4 if reading or writing failed.
#![tactic(auto)]

mod data;
mod failure;
mod message;
mod name;
mod words;

use crate::failure::Failure;
use crate::message::{append_message, read_whole};
use clap::error::ErrorKind;
use clap::{Arg, ArgAction, ArgMatches, Command, Error};
use example_base::{Trouble, new_buffer, read_piece, words_of};
use format_dns::write_message;
use std::alloc::Global;
use std::fs::File;
use std::io::{self, Read, Write};
use std::process::ExitCode;

// A message has at most as many bytes (section 4.2.2).
const LONGEST: usize = 65_535;

fn main(rt: HostRuntime) -> ExitCode {
    match words_of(&rt) {
        Ok(words) => run(&rt, words.as_slice()),
        Err(error) => match error.kind() {
            io::ErrorKind::OutOfMemory => status_of(&rt, Err(Failure::from(Trouble::OutOfMemory))),
            _ => {
                let _ = rt.eprintln("an argument is no UTF-8");
                ExitCode::from(2)
            }
        },
    }
}

// Returns the command line: `[FILE]`, `--write`, `--help` and `--version`.
fn matches_of<'a>(alloc: Global, words: &'a [String]) -> Result<ArgMatches<'a>, Error> {
    let file = Arg::new(alloc, "FILE").help(
        "The file to read; without one, or where it is -, standard input",
    );
    let write = Arg::new(alloc, "write")
        .long("write")
        .help("Writes the message anew in place of its text")
        .action(ArgAction::SetTrue);
    let command = Command::new(alloc, "example_dns")
        .about("Prints a message of the domain name system")
        .version("0.1.0")
        .arg(file)?
        .arg(write)?;
    command.try_get_matches_from(words)
}

// Does what the words of the command line say, and returns the status.
fn run(rt: &HostRuntime, words: &[String]) -> ExitCode {
    match matches_of(rt.alloc(), words) {
        Ok(matches) => status_of(rt, print(rt, &matches)),
        Err(error) => match error.kind() {
            ErrorKind::OutOfMemory => status_of(rt, Err(Failure::from(Trouble::OutOfMemory))),
            _ => {
                // If this cannot be written either, only the status tells.
                let _ = error.print(rt);
                ExitCode::from(error.exit_code() as u8)
            }
        },
    }
}

// Prints the message that the arguments name.
fn print(rt: &HostRuntime, matches: &ArgMatches<'_>) -> Result<(), Failure> {
    let bytes = match matches.get_str("FILE") {
        None => bytes_of(rt.alloc(), &mut rt.stdin())?,
        Some("-") => bytes_of(rt.alloc(), &mut rt.stdin())?,
        Some(name) => match File::open(rt, name) {
            Ok(mut file) => bytes_of(rt.alloc(), &mut file)?,
            Err(error) => return Err(Failure::from(Trouble::reading(error))),
        },
    };
    let message = read_whole(rt.alloc(), &bytes)?;
    let mut text = Vec::new(rt.alloc());
    let answer = if matches.get_flag("write") {
        write_message(&message, &mut text).map_err(Failure::from)
    } else {
        append_message(&bytes, &message, &mut text)
    };
    write_out(&text, &mut rt.stdout())?;
    answer
}

// Reads an input to its end. One that is longer than a message ends with an error.
fn bytes_of<R: Read>(alloc: Global, input: &mut R) -> Result<Vec<u8>, Failure> {
    let mut buffer = new_buffer(alloc)?;
    let mut bytes = Vec::new(alloc);
    for _ in 0..LONGEST + 1 {
        let count = read_piece(input, &mut buffer)?;
        if count == 0 {
            return Ok(bytes);
        }
        bytes.extend_from_slice(&buffer[..count])?;
        if LONGEST < bytes.len() {
            break;
        }
    }
    Err(Failure::TooLong)
}

// Writes text, and flushes the output.
fn write_out<W: Write>(text: &[u8], output: &mut W) -> Result<(), Trouble> {
    match output.write_all(text) {
        Ok(()) => {}
        Err(error) => return Err(Trouble::writing(error)),
    }
    match output.flush() {
        Ok(()) => Ok(()),
        Err(error) => Err(Trouble::writing(error)),
    }
}

// Says why the program failed, and returns its status.
fn status_of(rt: &HostRuntime, answer: Result<(), Failure>) -> ExitCode {
    match answer {
        Ok(()) => ExitCode::SUCCESS,
        Err(Failure::Stopped(trouble)) if trouble.is_quiet() => ExitCode::SUCCESS,
        Err(failure) => {
            let status = failure.status();
            // If standard error cannot be written either, only the status reports the failure.
            let _ = rt.eprintln(failure);
            ExitCode::from(status)
        }
    }
}
