//! Reads replies of the Redis protocol, and prints each as `redis-cli` prints it to a terminal.
//!
//! The replies are those of the file that is named as an argument, or of standard input, if none is
//! or it is `-`. With `--check` nothing is printed. `--depth` limits within how many arrays a reply
//! may stand, and `--limit` how many bytes a text or a bulk string has.
//!
//! Of `INFO`, `CLIENT LIST`, `LOLWUT`, `MEMORY DOCTOR` and some other commands `redis-cli` prints
//! the text of a reply as it stands. `--command` says whose replies these are.
//!
//! The input is read in pieces, and a reply is printed as soon as its piece has been read. So the
//! longest reply and one piece bound what is kept, however long the input is.
//!
//! The exit status is 0, also if nothing reads the output any more; 2 if a reply is malformed or
//! passes a limit, if the input ends inside one, and for arguments that are none; 3 if memory was
//! refused; and 4 if reading or writing failed. The replies before a failure are printed, and
//! standard error says what is wrong, and where.
#![tactic(auto)]

mod arguments;
mod command;
mod program;
mod settings;

use crate::arguments::{NAME, matches_of, settings_of};
use crate::settings::Settings;
use clap::ArgMatches;
use clap::error::ErrorKind;
use example_base::{Trouble, words_of};
use std::fs::File;
use std::io::{self, IsTerminal, Read};
use std::process::ExitCode;
use wb_base::{Colours, Message, Position, Watched, can_redraw};
use wb_replies::{Failure, Layout};

fn main(rt: HostRuntime) -> ExitCode {
    match words_of(&rt) {
        Ok(words) => run(&rt, words.as_slice()),
        Err(error) => match error.kind() {
            io::ErrorKind::OutOfMemory => out_of_memory(&rt),
            _ => {
                let _ = rt.eprintln("an argument is no UTF-8");
                ExitCode::from(2)
            }
        },
    }
}

// Does what the words of the command line say, and returns the status.
fn run(rt: &HostRuntime, words: &[String]) -> ExitCode {
    match matches_of(rt.alloc(), words) {
        Ok(matches) => print(rt, &matches),
        Err(error) => match error.kind() {
            ErrorKind::OutOfMemory => out_of_memory(rt),
            _ => {
                // If this cannot be written either, only the status tells.
                let _ = error.print(rt);
                ExitCode::from(error.exit_code() as u8)
            }
        },
    }
}

// Says that memory was refused, and returns the status.
fn out_of_memory(rt: &HostRuntime) -> ExitCode {
    status_of(
        rt,
        "<arguments>",
        Err(Failure::Stopped(Trouble::OutOfMemory)),
    )
}

// Prints the replies of the file that the arguments name, and returns the status.
fn print(rt: &HostRuntime, matches: &ArgMatches<'_>) -> ExitCode {
    let settings = settings_of(matches);
    match matches.get_str("FILE") {
        None => print_input(rt, settings),
        Some("-") => print_input(rt, settings),
        Some(name) => status_of(rt, name, print_file(rt, name, settings)),
    }
}

// Prints the replies of standard input, and returns the status.
fn print_input(rt: &HostRuntime, settings: Settings) -> ExitCode {
    let answer = print_watched(rt, settings, rt.stdin(), None);
    status_of(rt, "<stdin>", answer)
}

// Prints the replies of a file.
fn print_file(rt: &HostRuntime, name: &str, settings: Settings) -> Result<(), Failure> {
    match File::open(rt, name) {
        Ok(file) => {
            let length = length_of(&file);
            print_watched(rt, settings, file, length)
        }
        Err(error) => Err(Failure::Stopped(Trouble::reading(error))),
    }
}

// Returns the length of a file, if it is one that has a length.
fn length_of(file: &File) -> Option<u64> {
    match file.metadata() {
        Ok(metadata) if metadata.is_file() => Some(metadata.len()),
        _ => None,
    }
}

// Prints the replies of an input, and shows how far it has been read, if the terminal shows nothing
// else.
fn print_watched<R: Read + Drop>(
    rt: &HostRuntime,
    settings: Settings,
    input: R,
    length: Option<u64>,
) -> Result<(), Failure> {
    let is_silent = settings.layout == Layout::Nothing || !rt.stdout().is_terminal();
    let is_shown = is_silent && can_redraw(rt, &rt.stderr());
    let mut input = Watched::new(rt, input, length, is_shown);
    let answer = program::print_replies(rt.alloc(), settings, &mut input, &mut rt.stdout());
    input.wipe();
    answer
}

// Returns the place of a failure as a message shows it, by characters.
fn position_of(failure: &Failure) -> Option<Position> {
    failure.place().map(|place| Position {
        line: place.line,
        column: place.character,
    })
}

// Says why the program failed, and returns its status.
fn status_of(rt: &HostRuntime, file: &str, answer: Result<(), Failure>) -> ExitCode {
    match answer {
        Ok(()) => ExitCode::SUCCESS,
        Err(Failure::Stopped(trouble)) if trouble.is_quiet() => ExitCode::SUCCESS,
        Err(failure) => {
            let message = Message {
                tool: NAME,
                file,
                position: position_of(&failure),
                what: &failure,
                excerpt: failure.excerpt(),
                colours: Colours::of(rt, &rt.stderr()),
            };
            // If standard error cannot be written either, only the status reports the failure.
            let _ = rt.eprintln(message);
            ExitCode::from(failure.status())
        }
    }
}
