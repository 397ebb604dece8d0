//! The arguments of the program.

use crate::settings::{Layout, Settings};
use clap::{Arg, ArgAction, ArgMatches, Command, Error};
use std::alloc::{AllocError, Global};

/// What the program is called.
pub const NAME: &str = "wb-json";

const ABOUT: &str = "Reads JSON, and writes each value as an assignment to its path";

const EXAMPLES: &str = "Examples:
  wb-json page.json                 writes each value with its path, in the order of the text
  wb-json page.json | grep title    finds the values of names with title, and their paths
  wb-json --lines log.ndjson        reads each line as a text of its own
  wb-json --values page.json        writes the text without blanks, on one line
  wb-json --check page.json         only says whether the text is JSON, and where it is not
  wb-json --limit 4096 page.json    stops at a token of more than 4096 bytes

The status is 0 for a sound text; 2 for one that is not, and for faulty arguments; 3 if memory was
refused; 4 if reading or writing failed.";

// Within how many arrays and objects a value may stand where no argument says it.
const DEPTH: usize = 128;

// A flag without a value.
fn flag<'a>(alloc: Global, name: &'a str, help: &'a str) -> Arg<'a> {
    Arg::new(alloc, name)
        .long(name)
        .help(help)
        .action(ArgAction::SetTrue)
}

// Returns the command line.
fn command<'a>(alloc: Global) -> Result<Command<'a>, AllocError> {
    let file = Arg::new(alloc, "FILE").help(
        "The file to read; without one, or where it is -, standard input",
    );
    let lines = flag(alloc, "lines", "Read each line that is not blank as a text");
    let check = flag(alloc, "check", "Write nothing but what is wrong");
    let values = flag(
        alloc,
        "values",
        "Write each text without blanks, one a line",
    )
    .conflicts_with("check")?;
    let depth = Arg::new(alloc, "depth")
        .long("depth")
        .value_name("N")
        .value_parser(clap::value_parser!(usize))
        .help("Within how many arrays and objects a value may stand, 128 otherwise");
    let limit = Arg::new(alloc, "limit")
        .long("limit")
        .value_name("N")
        .value_parser(clap::value_parser!(usize))
        .help("Stop at a string, a number or another token of more than N bytes");
    Command::new(alloc, NAME)
        .about(ABOUT)
        .after_help(EXAMPLES)
        .version("0.1.0")
        .arg(file)?
        .arg(lines)?
        .arg(values)?
        .arg(check)?
        .arg(depth)?
        .arg(limit)
}

/// Returns what the words of the command line say, or what is to be printed in place of that: for
/// `--help`, for `--version`, or for words that are none.
pub fn matches_of<'a>(alloc: Global, words: &'a [String]) -> Result<ArgMatches<'a>, Error> {
    let command = command(alloc)?;
    command.try_get_matches_from(words)
}

/// Returns the settings that the arguments say, or `None` if no token may have a byte.
pub fn settings_of(matches: &ArgMatches<'_>) -> Option<Settings> {
    Some(Settings {
        layout: layout_of(matches),
        by_lines: matches.get_flag("lines"),
        depth: matches.get_one::<usize>("depth").unwrap_or(DEPTH),
        limit: limit_of(matches)?,
    })
}

// Returns how many bytes a token may have, unless that is 0.
fn limit_of(matches: &ArgMatches<'_>) -> Option<usize> {
    match matches.get_one::<usize>("limit") {
        Some(0) => None,
        Some(limit) => Some(limit),
        None => Some(usize::MAX),
    }
}

// Returns how the arguments say that events are written.
fn layout_of(matches: &ArgMatches<'_>) -> Layout {
    if matches.get_flag("check") {
        return Layout::Nothing;
    }
    if matches.get_flag("values") {
        return Layout::Values;
    }
    Layout::Assignments
}
