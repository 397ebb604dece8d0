//! The printed text of a `ParseError`: the line with a caret, and the inner error.

ghost use Rattle.std.specs.Prelude.{◌≡◌, ◌++◌, IfOk, Some, length, string_bytes};
ghost use Rattle.std.specs.Fmt.{◌++?◌, decimal};
ghost use Rattle.winnow_error_parse.specs.Position.{line_of, column_of};
ghost use Rattle.winnow_error_parse.specs.ParseErrorText.{spaces, line_text, heading_text};
ghost use Rattle.winnow_error_parse.specs.ParseErrorText.{numbered_text, caret_text, place_text};
ghost use Rattle.winnow_error_parse.specs.ParseErrorText.{pointer_text};

use crate::ParseError;
use crate::line::{has_newline, line_at};
use crate::position::translate_position;
use std::alloc::{AllocError, Global};
use std::fmt;
use winnow_error::write_bare;
use winnow_kinds::BStr;
use winnow_stream::AsBStr;

/// Prints that number of spaces.
#[derive(Drop)]
struct Spaces(usize);

impl fmt::Display for Spaces {
    ghost output = { λ s. Some (spaces s.0) };

    fn fmt<W: fmt::Write>(&self, f: &mut fmt::Formatter<W>) -> fmt::Result {
        for _i in 0..self.0 {
            f.write_str(" ")?;
        }
        Ok(())
    }
}

/// Returns the number of digits of a number.
fn digit_count(number: u128) -> usize
    ensures { result ≡ length (decimal number) }
{
    let mut rest = number;
    let mut count = 1;
    while rest >= 10 {
        rest /= 10;
        count += 1;
    }
    count
}

/// Prints bytes of one line, and a caret below the offset.
#[derive(Drop)]
struct Line<'a> {
    bytes: &'a [u8],
    offset: usize,
}

impl fmt::Display for Line<'_> {
    ghost output = { λ l. Some (line_text l.bytes.now l.offset) };

    fn fmt<W: fmt::Write>(&self, f: &mut fmt::Formatter<W>) -> fmt::Result {
        let text = BStr::new(self.bytes);
        let indent = Spaces(self.offset);
        write!(f, "{text}\n{indent}^\n")
    }
}

/// Prints the line and the column where the error occurred, both counted from 1.
#[derive(Drop)]
struct Heading {
    number: u128,
    column: u128,
}

impl fmt::Display for Heading {
    ghost output = { λ h. Some (heading_text h.number h.column) };

    fn fmt<W: fmt::Write>(&self, f: &mut fmt::Formatter<W>) -> fmt::Result {
        let number = self.number;
        let column = self.column;
        write!(f, "parse error at line {number}, column {column}\n")
    }
}

/// Prints a line with its number.
#[derive(Drop)]
struct Numbered<'a> {
    number: u128,
    line: &'a [u8],
}

impl fmt::Display for Numbered<'_> {
    ghost output = { λ n. Some (numbered_text n.number n.line.now) };

    fn fmt<W: fmt::Write>(&self, f: &mut fmt::Formatter<W>) -> fmt::Result {
        let number = self.number;
        let margin = Spaces(digit_count(number));
        let line = BStr::new(self.line);
        write!(f, "{margin} |\n{number} | {line}\n")
    }
}

/// Prints a caret below a column of a line.
#[derive(Drop)]
struct Caret {
    number: u128,
    column: usize,
}

impl fmt::Display for Caret {
    ghost output = { λ c. Some (caret_text c.number c.column) };

    fn fmt<W: fmt::Write>(&self, f: &mut fmt::Formatter<W>) -> fmt::Result {
        let margin = Spaces(digit_count(self.number));
        let indent = Spaces(self.column);
        write!(f, "{margin} | {indent}^\n")
    }
}

/// Prints bytes of several lines: the line and the column of the offset, then that line with a
/// caret.
#[derive(Drop)]
struct Place<'a> {
    bytes: &'a [u8],
    offset: usize,
}

impl fmt::Display for Place<'_> {
    ghost output = { λ p. let bytes = p.bytes.now in
        Some (place_text bytes (line_of bytes p.offset) (column_of bytes p.offset)) };

    fn fmt<W: fmt::Write>(&self, f: &mut fmt::Formatter<W>) -> fmt::Result {
        let (line, column) = translate_position(self.bytes, self.offset);
        let number = line as u128 + 1;
        let heading = Heading {
            number,
            column: column as u128 + 1,
        };
        let shown = Numbered {
            number,
            line: line_at(self.bytes, self.offset),
        };
        let caret = Caret { number, column };
        write!(f, "{heading}{shown}{caret}")
    }
}

/// Prints where an offset stands in the bytes.
#[derive(Drop)]
struct Pointer<'a> {
    bytes: &'a [u8],
    offset: usize,
}

impl fmt::Display for Pointer<'_> {
    ghost output = { λ p. Some (pointer_text p.bytes.now p.offset) };

    fn fmt<W: fmt::Write>(&self, f: &mut fmt::Formatter<W>) -> fmt::Result {
        let bytes = self.bytes;
        let offset = self.offset;
        if has_newline(bytes) {
            let place = Place { bytes, offset };
            write!(f, "{place}")
        } else {
            let line = Line { bytes, offset };
            write!(f, "{line}")
        }
    }
}

/// Prints bytes without a newline with a caret below the offset, and other bytes as the line and
/// the column, then that line alone; then prints the error. Damaged bytes print as U+FFFD, as a
/// [`BStr`] prints them. Options of the formatter do not change the text.
impl<I: AsBStr, E: fmt::Display> fmt::Display for ParseError<I, E> {
    ghost output = { λ e.
        Some (pointer_text (I.text_bytes e.input) e.offset) ++? E.output e.inner };

    ghost styled_output = { λ e _.
        Some (pointer_text (I.text_bytes e.input) e.offset) ++? E.output e.inner };

    fn fmt<W: fmt::Write>(&self, f: &mut fmt::Formatter<W>) -> fmt::Result {
        let pointer = Pointer {
            bytes: self.input().as_bstr(),
            offset: self.offset(),
        };
        let inner = self.inner();
        write_bare(f, format_args!("{pointer}{inner}"))
    }
}

impl<I: AsBStr, E> ParseError<I, E> {
    /// Returns the text that this error prints, with `inner` in place of the inner error's text.
    /// So an error whose text needs memory, as a tree's does, is shown with its place:
    /// `error.text_with(alloc, error.inner().text(alloc)?.as_str())`. Refused memory is answered.
    pub fn text_with(&self, alloc: Global, inner: &str) -> Result<String, AllocError>
        ensures { IfOk result (λ s. string_bytes s
            ≡ pointer_text (I.text_bytes self.now.input) self.now.offset ++ inner.now) }
    {
        let pointer = Pointer {
            bytes: self.input().as_bstr(),
            offset: self.offset(),
        };
        format!(in alloc; "{pointer}{inner}")
    }
}
