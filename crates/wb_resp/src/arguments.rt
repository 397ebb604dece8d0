//! The arguments of the program.

use crate::command::Command as Words;
use crate::settings::Settings;
use clap::{Arg, ArgAction, ArgMatches, Command, Error};
use format_resp::ReplyTo;
use std::alloc::{AllocError, Global};
use wb_replies::Layout;

/// What the program is called.
pub const NAME: &str = "wb-resp";

// The limits where no argument says otherwise.
const LIMITS: ReplyTo = ReplyTo {
    // Calls are nested as deep as arrays, so this bounds the stack. Replies of the server's own
    // commands are not a quarter as deep.
    depth: 32,
    // The server's own limit on a string, if its configuration names no other.
    longest: 512 * 1024 * 1024,
};

const ABOUT: &str = "Reads replies of the Redis protocol, and prints each one as redis-cli does";

const EXAMPLES: &str = "Examples:
  wb-resp replies                            prints the replies as redis-cli does at a terminal
  wb-resp --check replies                    only says whether the file is sound, and where not
  wb-resp --command \"INFO server\" replies    prints the text that INFO answers as it stands
  wb-resp --depth 4 --limit 65536 replies    reads the file within narrower limits

The status is 0 for a sound file; 2 for one that is not, and for faulty arguments; 3 if memory was
refused; 4 if reading or writing failed.";

// Returns an argument with a number.
fn number<'a>(alloc: Global, name: &'a str, help: &'a str) -> Arg<'a> {
    Arg::new(alloc, name)
        .long(name)
        .value_name("N")
        .help(help)
        .value_parser(clap::value_parser!(usize))
}

// Returns the command line.
fn command<'a>(alloc: Global) -> Result<Command<'a>, AllocError> {
    let file = Arg::new(alloc, "FILE").help(
        "The file to read; without one, or where it is -, standard input",
    );
    let check = Arg::new(alloc, "check")
        .long("check")
        .help("Write nothing but what is wrong")
        .action(ArgAction::SetTrue);
    let depth = number(
        alloc,
        "depth",
        "Within how many arrays a reply may stand, 32 otherwise",
    );
    let limit = number(
        alloc,
        "limit",
        "How many bytes a text or a bulk string may have, 512 MiB otherwise",
    );
    let words = Arg::new(alloc, "command")
        .long("command")
        .value_name("WORDS")
        .value_delimiter(' ')
        .help("The words of the command whose replies these are, with blanks between them");
    Command::new(alloc, NAME)
        .about(ABOUT)
        .after_help(EXAMPLES)
        .version("0.1.0")
        .arg(file)?
        .arg(check)?
        .arg(depth)?
        .arg(limit)?
        .arg(words)
}

/// Returns what the words of the command line say, or what is to be printed in place of that: for
/// `--help`, for `--version`, or for words that are none.
pub fn matches_of<'a>(alloc: Global, words: &'a [String]) -> Result<ArgMatches<'a>, Error> {
    let command = command(alloc)?;
    command.try_get_matches_from(words)
}

/// Returns the settings that the arguments say.
pub fn settings_of(matches: &ArgMatches<'_>) -> Settings {
    Settings {
        limits: ReplyTo {
            depth: matches.get_one::<usize>("depth").unwrap_or(LIMITS.depth),
            longest: matches.get_one::<usize>("limit").unwrap_or(LIMITS.longest),
        },
        layout: layout_of(matches),
    }
}

// Returns how the arguments say that a reply is printed.
fn layout_of(matches: &ArgMatches<'_>) -> Layout {
    if matches.get_flag("check") {
        return Layout::Nothing;
    }
    let words = matches.get_strs("command").unwrap_or(&[]);
    if Words::of(words).is_raw() {
        return Layout::Raw;
    }
    Layout::Terminal
}
