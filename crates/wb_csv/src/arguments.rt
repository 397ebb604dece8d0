//! The arguments of the program.

use crate::settings::{Layout, Settings};
use clap::{Arg, ArgAction, ArgMatches, Command, Error};
use std::alloc::{AllocError, Global};
use std::fmt;

/// What the program is called.
pub const NAME: &str = "wb-csv";

const ABOUT: &str = "Reads comma-separated values, and writes them with quotes only where needed";

const EXAMPLES: &str = "Examples:
  wb-csv table.csv                  writes the records, with quotes only where they are needed
  wb-csv --check table.csv          only says whether the file is sound, and where it is not
  wb-csv --columns 3,1 table.csv    writes the third field of each record, and then the first
  wb-csv --to-json table.csv        writes each record as an array of strings, one a line
  wb-csv --delimiter ';' table.csv  reads fields with semicolons between them, and writes commas
  wb-csv --delimiter tab table.tsv  reads fields with tabs between them
  wb-csv --limit 65536 table.csv    stops at a record of more than 65,536 bytes

The status is 0 for a sound file; 2 for one that is not, and for faulty arguments; 3 if memory was
refused; 4 if reading or writing failed.";

// A flag without a value.
fn flag<'a>(alloc: Global, name: &'a str, help: &'a str) -> Arg<'a> {
    Arg::new(alloc, name)
        .long(name)
        .help(help)
        .action(ArgAction::SetTrue)
}

// Returns the command line.
fn command<'a>(alloc: Global) -> Result<Command<'a>, AllocError> {
    let file = Arg::new(alloc, "FILE").help(
        "The file to read; without one, or where it is -, standard input",
    );
    let check = flag(alloc, "check", "Write nothing but what is wrong");
    let columns = Arg::new(alloc, "columns")
        .long("columns")
        .value_name("N,..")
        .value_delimiter(',')
        .value_parser(clap::value_parser!(usize))
        .action(ArgAction::Append)
        .help("Write these fields of each record, counted from 1");
    let ragged = flag(
        alloc,
        "ragged",
        "Let records have other numbers of fields than the first one",
    );
    let json = flag(
        alloc,
        "to-json",
        "Write each record as an array of JSON, one a line",
    )
    .conflicts_with("check")?;
    let delimiter = Arg::new(alloc, "delimiter")
        .long("delimiter")
        .value_name("C")
        .help("Read fields with this character of ASCII between them, or tab");
    let limit = Arg::new(alloc, "limit")
        .long("limit")
        .value_name("N")
        .value_parser(clap::value_parser!(usize))
        .help("Stop at a record of more than N bytes, with its line end");
    Command::new(alloc, NAME)
        .about(ABOUT)
        .after_help(EXAMPLES)
        .version("0.1.0")
        .arg(file)?
        .arg(check)?
        .arg(columns)?
        .arg(ragged)?
        .arg(json)?
        .arg(delimiter)?
        .arg(limit)
}

/// Returns what the words of the command line say, or what is to be printed in place of that: for
/// `--help`, for `--version`, or for words that are none.
pub fn matches_of<'a>(alloc: Global, words: &'a [String]) -> Result<ArgMatches<'a>, Error> {
    let command = command(alloc)?;
    command.try_get_matches_from(words)
}

/// What is wrong with an argument.
#[derive(Clone, Copy, Debug, Drop, PartialEq, Eq)]
pub enum Wrong {
    /// A column is 0
    Column,
    /// A delimiter is none
    Delimiter,
    /// The longest record has no byte
    Limit,
}

impl fmt::Display for Wrong {
    fn fmt<W: fmt::Write>(&self, f: &mut fmt::Formatter<W>) -> fmt::Result {
        f.write_str(match self {
            Wrong::Column => "columns are counted from 1",
            Wrong::Delimiter => {
                "a delimiter is one character of ASCII, but no quote and no line end, or tab"
            }
            Wrong::Limit => "a record has at least 1 byte",
        })
    }
}

/// Returns the settings that the arguments say, or which of them is wrong.
pub fn settings_of(
    alloc: Global,
    matches: &ArgMatches<'_>,
) -> Result<Result<Settings, Wrong>, AllocError> {
    let Some(delimiter) = delimiter_of(matches.get_str("delimiter").unwrap_or(",")) else {
        return Ok(Err(Wrong::Delimiter));
    };
    let Some(limit) = limit_of(matches) else {
        return Ok(Err(Wrong::Limit));
    };
    let mut settings = Settings {
        layout: layout_of(matches),
        columns: Vec::new(alloc),
        least: 0,
        ragged: matches.get_flag("ragged"),
        delimiter,
        limit,
    };
    if !choose_columns(&mut settings, matches)? {
        return Ok(Err(Wrong::Column));
    }
    Ok(Ok(settings))
}

// Chooses the columns that the arguments name, and returns whether each can be one.
fn choose_columns(settings: &mut Settings, matches: &ArgMatches<'_>) -> Result<bool, AllocError> {
    let Some(columns) = matches.get_many::<usize>("columns") else {
        return Ok(true);
    };
    for column in columns {
        let Ok(column) = column else {
            return Ok(false);
        };
        if !settings.choose(column)? {
            return Ok(false);
        }
    }
    Ok(true)
}

// Returns the delimiter that a word names, if it is one that can stand between fields.
fn delimiter_of(word: &str) -> Option<u8> {
    if word == "tab" || word == "\\t" {
        return Some(b'\t');
    }
    match word.as_bytes() {
        [b'"' | b'\r' | b'\n'] => None,
        [byte] if byte.is_ascii() => Some(*byte),
        _ => None,
    }
}

// Returns how many bytes a record may have, unless that is 0.
fn limit_of(matches: &ArgMatches<'_>) -> Option<usize> {
    match matches.get_one::<usize>("limit") {
        Some(0) => None,
        Some(limit) => Some(limit),
        None => Some(usize::MAX),
    }
}

// Returns how the arguments say that a record is written.
fn layout_of(matches: &ArgMatches<'_>) -> Layout {
    if matches.get_flag("check") {
        return Layout::Nothing;
    }
    if matches.get_flag("to-json") {
        return Layout::Json;
    }
    Layout::Csv
}
