//! The printed text of a `ContextError` whose contexts are of type `StrContext`.

ghost use Rattle.std.specs.Prelude.{◌≡◌, Some, option_map};
ghost use Rattle.winnow_error_context.specs.Line.{line_output};
ghost use Rattle.winnow_error_context.specs.ContextText.{first_label, expected, is_any};
ghost use Rattle.winnow_error_context.specs.ContextText.{values_text};
ghost use Rattle.winnow_error_context.specs.ContextText.{explanation_text};

use crate::{ContextError, StrContext};
use std::fmt;
use winnow_error::write_bare;

/// Returns the first label, if there is one.
fn first_label(contexts: &[StrContext]) -> Option<&'static str>
    ensures { option_map (λ text. text.now) result ≡ first_label contexts.now }
{
    for context in contexts {
        if let StrContext::Label(label) = context {
            return Some(*label);
        }
    }
    None
}

/// Returns whether some value was expected.
fn is_any_expected(contexts: &[StrContext]) -> bool
    ensures { result ≡ is_any (expected contexts.now) }
{
    for context in contexts {
        if let StrContext::Expected(_) = context {
            return true;
        }
    }
    false
}

/// All expected values, with a comma between each two.
#[derive(Drop)]
struct AllExpected<'a>(&'a [StrContext]);

impl fmt::Display for AllExpected<'_> {
    ghost output = { λ all. Some (values_text (expected all.0.now)) };

    fn fmt<W: fmt::Write>(&self, f: &mut fmt::Formatter<W>) -> fmt::Result {
        let mut lead = "";
        for context in self.0 {
            if let StrContext::Expected(value) = context {
                write!(f, "{lead}{value}")?;
                lead = ", ";
            }
        }
        Ok(())
    }
}

/// A line that may be absent: a newline if it follows another line, then its start and its text.
#[derive(Drop)]
struct Line<'a, T> {
    is_later: bool,
    start: &'a str,
    text: Option<T>,
}

impl<T: fmt::Display> fmt::Display for Line<'_, T> {
    ghost output = { λ line.
        line_output line.is_later line.start.now (option_map T.output line.text) };

    fn fmt<W: fmt::Write>(&self, f: &mut fmt::Formatter<W>) -> fmt::Result {
        let start = self.start;
        match &self.text {
            None => Ok(()),
            Some(text) => {
                if self.is_later {
                    write!(f, "\n{start}{text}")
                } else {
                    write!(f, "{start}{text}")
                }
            }
        }
    }
}

/// Options of the formatter do not change the text.
impl fmt::Display for ContextError<StrContext> {
    ghost output = { λ e. Some (explanation_text e) };

    ghost styled_output = { λ e _. Some (explanation_text e) };

    fn fmt<W: fmt::Write>(&self, f: &mut fmt::Formatter<W>) -> fmt::Result {
        let contexts = self.context().as_slice();
        let label = first_label(contexts);
        let is_labelled = label.is_some();
        let is_expected = is_any_expected(contexts);
        let label = Line {
            is_later: false,
            start: "invalid ",
            text: label,
        };
        let expected = Line {
            is_later: is_labelled,
            start: "expected ",
            text: is_expected.then_some(AllExpected(contexts)),
        };
        let cause = Line {
            is_later: is_labelled || is_expected,
            start: "",
            text: self.cause(),
        };
        write_bare(f, format_args!("{label}{expected}{cause}"))
    }
}
