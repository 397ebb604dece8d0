//! `Colours`: whether a terminal shows styles, and `Painted`, a text with one.

ghost use Rattle.std.specs.Prelude.{◌≡◌, true, Some};
ghost use Rattle.wb_base.specs.Styles.{start_of, painted};

use std::env::{self, Env, VarError};
use std::fmt;
use std::io::IsTerminal;

/// Whether styles are shown where a message is written.
#[derive(Clone, Copy, Debug, Drop, PartialEq, Eq)]
pub enum Colours {
    /// Styles are shown
    Shown,
    /// Only text is written
    None,
}

impl Colours {
    /// Returns whether styles are shown on this stream: it is a terminal that has them, and the
    /// person at it does not set `NO_COLOR`.
    ///
    /// What the system says of the stream and of the environment is in no contract.
    pub fn of<R: Env + AllocGlobal, T: IsTerminal>(rt: &R, stream: &T) -> Colours {
        if can_redraw(rt, stream) && is_unset(&env::var(rt, "NO_COLOR")) {
            return Colours::Shown;
        }
        Colours::None
    }
}

/// Returns whether this stream is a terminal on which a line can be written anew. One whose `TERM`
/// is `dumb` is none.
///
/// What the system says of the stream and of the environment is in no contract.
pub fn can_redraw<R: Env + AllocGlobal, T: IsTerminal>(rt: &R, stream: &T) -> bool {
    if !stream.is_terminal() {
        return false;
    }
    match env::var(rt, "TERM") {
        Ok(name) => name.as_str() != "dumb",
        Err(_) => true,
    }
}

// Returns whether a variable of the environment is not there, or empty.
fn is_unset(value: &Result<String, VarError>) -> bool {
    match value {
        Ok(text) => text.is_empty(),
        Err(error) => *error == VarError::NotPresent,
    }
}

/// How a part of a message is shown.
#[derive(Clone, Copy, Debug, Drop, PartialEq, Eq)]
pub enum Style {
    /// The place of a fault: bold
    Place,
    /// What is wrong: bold and red
    Wrong,
    /// The caret under a fault: bold and green
    Caret,
}

/// A text in a style, where styles are shown. Where they are not, it is the text and no byte more.
#[derive(Clone, Copy, Debug, Drop)]
pub struct Painted<T> {
    /// Whether the style is shown
    pub colours: Colours,
    /// The style
    pub style: Style,
    /// The text
    pub what: T,
}

// Begins a style.
impl fmt::Display for Style {
    ghost output = { λ style. Some (start_of style) };

    fn fmt<W: fmt::Write>(&self, f: &mut fmt::Formatter<W>) -> fmt::Result {
        match self {
            Style::Place => f.write_str("\u{1b}[1m"),
            Style::Wrong => f.write_str("\u{1b}[1;31m"),
            Style::Caret => f.write_str("\u{1b}[1;32m"),
        }
    }
}

impl<T: fmt::Display> fmt::Display for Painted<T> {
    ghost output = { λ text. painted text.colours text.style (T.output text.what) };

    fn fmt<W: fmt::Write>(&self, f: &mut fmt::Formatter<W>) -> fmt::Result {
        match self.colours {
            Colours::Shown => write!(f, "{}{}\u{1b}[0m", self.style, self.what),
            Colours::None => write!(f, "{}", self.what),
        }
    }
}
