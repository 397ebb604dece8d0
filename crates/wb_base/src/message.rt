//! `Message`: what a tool says on standard error.

use crate::excerpt::Excerpt;
use crate::position::Position;
use crate::terminal::{Colours, Painted, Style};
use std::fmt;

/// What a tool says of a file: `TOOL: FILE:LINE:COLUMN: what is wrong`, and then the line with a
/// caret under the column. What is not known is left out.
///
/// Where colours are shown, the place is bold, what is wrong is red, and the caret is green;
/// elsewhere only text is written.
#[derive(Debug, Drop)]
pub struct Message<'a, 'e, T> {
    /// The name of the tool
    pub tool: &'a str,
    /// The name of the file
    pub file: &'a str,
    /// The place
    pub position: Option<Position>,
    /// What is wrong
    pub what: T,
    /// The line
    pub excerpt: Option<&'e Excerpt>,
    /// Whether styles are shown
    pub colours: Colours,
}

// The tool, the file and the place in it.
#[derive(Clone, Copy, Debug, Drop)]
struct Place<'a> {
    tool: &'a str,
    file: &'a str,
    position: Option<Position>,
}

impl fmt::Display for Place<'_> {
    fn fmt<W: fmt::Write>(&self, f: &mut fmt::Formatter<W>) -> fmt::Result {
        write!(f, "{}: {}", self.tool, self.file)?;
        if let Some(position) = &self.position {
            write!(f, ":{position}")?;
        }
        f.write_str(":")
    }
}

impl<T: fmt::Display> fmt::Display for Message<'_, '_, T> {
    fn fmt<W: fmt::Write>(&self, f: &mut fmt::Formatter<W>) -> fmt::Result {
        let place = Painted {
            colours: self.colours,
            style: Style::Place,
            what: Place {
                tool: self.tool,
                file: self.file,
                position: self.position,
            },
        };
        let what = Painted {
            colours: self.colours,
            style: Style::Wrong,
            what: &self.what,
        };
        write!(f, "{place} {what}")?;
        if let Some(excerpt) = self.excerpt {
            f.write_str("\n")?;
            excerpt.write_painted(self.colours, f)?;
        }
        Ok(())
    }
}
