//! The arguments of a program: a file or `-`, a limit on depth and the skipping of a byte order
//! mark, if it has these.

use clap::{Arg, ArgAction, ArgMatches, Command, Error};
use std::alloc::{AllocError, Global};
use std::env::{self, Env};
use std::io;

/// What a program is called and does, and how it names the options that it has.
#[derive(Clone, Copy, Debug)]
pub struct Program {
    /// Its name
    pub name: &'static str,
    /// What it does, in a line
    pub about: &'static str,
    /// What `--depth` limits, with the limit that it has otherwise
    pub depth: Option<&'static str>,
    /// What `--skip-mark` skips
    pub mark: Option<&'static str>,
}

impl Program {
    /// Returns what the words of the command line say, or what is to be printed in place of that:
    /// for `--help`, for `--version`, or for words that are none.
    pub fn matches<'a>(&self, alloc: Global, words: &'a [String]) -> Result<ArgMatches<'a>, Error> {
        let command = self.command(alloc)?;
        command.try_get_matches_from(words)
    }

    // Returns the command line: `[FILE]`, `--depth N` if there is a limit, `--skip-mark` if a mark
    // can be skipped, `--help` and `--version`.
    fn command<'a>(&self, alloc: Global) -> Result<Command<'a>, AllocError> {
        let file = Arg::new(alloc, "FILE").help(
            "The file to read; without one, or where it is -, standard input",
        );
        let command = Command::new(alloc, self.name)
            .about(self.about)
            .version("0.1.0")
            .arg(file)?;
        let command = match self.depth {
            Some(help) => {
                let depth = Arg::new(alloc, "depth")
                    .long("depth")
                    .value_name("N")
                    .help(help)
                    .value_parser(clap::value_parser!(usize));
                command.arg(depth)?
            }
            None => command,
        };
        match self.mark {
            Some(help) => {
                let mark = Arg::new(alloc, "skip-mark")
                    .long("skip-mark")
                    .help(help)
                    .action(ArgAction::SetTrue);
                command.arg(mark)
            }
            None => Ok(command),
        }
    }
}

/// Returns the words of the command line, of which the first is the program's name.
pub fn words_of<R: Env + AllocGlobal>(rt: &R) -> io::Result<Vec<String>> {
    let mut words = Vec::new(rt.alloc());
    for word in env::args(rt)? {
        words.push(word)?;
    }
    Ok(words)
}
