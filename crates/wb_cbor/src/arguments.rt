//! The arguments of the program.

use crate::settings::Settings;
use clap::{Arg, ArgAction, ArgMatches, Command, Error};
use format_cbor_general::Limits;
use std::alloc::{AllocError, Global};

/// What the program is called.
pub const NAME: &str = "wb-cbor";

// The limits where no argument says otherwise.
const LIMITS: Limits = Limits {
    // Calls are nested as deep as items, so this bounds the stack.
    depth: 128,
    longest: 512 * 1024 * 1024,
};

const ABOUT: &str = "Reads CBOR, and prints each item in diagnostic notation";

const EXAMPLES: &str = "Examples:
  wb-cbor token.cbor                     prints each item of the file on a line of its own
  wb-cbor --check token.cbor             only says whether the file is CBOR, and where it is not
  wb-cbor --deterministic token.cbor     accepts only the deterministic form (RFC 8949, 4.2)
  wb-cbor --depth 8 --limit 4096 -       reads standard input within narrower limits

The status is 0 for a sound file; 2 for one that is not, and for faulty arguments; 3 if memory was
refused; 4 if reading or writing failed.";

// Returns an argument with a number.
fn number<'a>(alloc: Global, name: &'a str, help: &'a str) -> Arg<'a> {
    Arg::new(alloc, name)
        .long(name)
        .value_name("N")
        .help(help)
        .value_parser(clap::value_parser!(usize))
}

// Returns a flag without a value.
fn flag<'a>(alloc: Global, name: &'a str, help: &'a str) -> Arg<'a> {
    Arg::new(alloc, name)
        .long(name)
        .help(help)
        .action(ArgAction::SetTrue)
}

// Returns the command line.
fn command<'a>(alloc: Global) -> Result<Command<'a>, AllocError> {
    let file = Arg::new(alloc, "FILE").help(
        "The file to read; without one, or where it is -, standard input",
    );
    let check = flag(alloc, "check", "Write nothing but what is wrong");
    let form = flag(
        alloc,
        "deterministic",
        "Accept only the deterministic form (RFC 8949, section 4.2)",
    );
    let depth = number(
        alloc,
        "depth",
        "Within how many arrays, maps and tags an item may stand, 128 otherwise",
    );
    let limit = number(
        alloc,
        "limit",
        "How many bytes a string may have, 512 MiB otherwise",
    );
    Command::new(alloc, NAME)
        .about(ABOUT)
        .after_help(EXAMPLES)
        .version("0.1.0")
        .arg(file)?
        .arg(check)?
        .arg(form)?
        .arg(depth)?
        .arg(limit)
}

/// Returns what the words of the command line say, or what is to be printed in place of that: for
/// `--help`, for `--version`, or for words that are none.
pub fn matches_of<'a>(alloc: Global, words: &'a [String]) -> Result<ArgMatches<'a>, Error> {
    let command = command(alloc)?;
    command.try_get_matches_from(words)
}

/// Returns the settings that the arguments say.
pub fn settings_of(matches: &ArgMatches<'_>) -> Settings {
    Settings {
        limits: Limits {
            depth: matches.get_one::<usize>("depth").unwrap_or(LIMITS.depth),
            longest: matches.get_one::<usize>("limit").unwrap_or(LIMITS.longest),
        },
        deterministic: matches.get_flag("deterministic"),
        silent: matches.get_flag("check"),
    }
}
