//! The contexts `StrContext` and `StrContextValue`: labels and expected values, with their texts.

ghost use Rattle.std.specs.Prelude.{◌≡◌, Some};
ghost use Rattle.winnow_error_context.specs.ContextText.{value_text, context_text, char_text};
ghost use Rattle.winnow_error_context.specs.ContextDebug.{value_debug, context_debug};
ghost use Rattle.winnow_error_context.specs.declared.str_context.StrContextValue.TheVariants.{CharLiteral};
ghost use Rattle.winnow_error_context.specs.declared.str_context.StrContextValue.TheVariants.{StringLiteral};

use crate::variants::write_variant;
use std::fmt;
use winnow_error::write_bare;
use winnow_kinds::write_escaped;

/// What a parser was reading, or what it expected.
#[derive(Clone, Copy, PartialEq, Eq, Drop)]
pub enum StrContext {
    /// What was being read, for example `number`
    Label(&'static str),
    /// What was expected
    Expected(StrContextValue),
}

/// What a parser expected.
#[derive(Clone, Copy, PartialEq, Eq, Drop)]
pub enum StrContextValue {
    /// A character
    CharLiteral(char),
    /// A literal text
    StringLiteral(&'static str),
    /// A description in words, for example `a digit`
    Description(&'static str),
}

impl From<char> for StrContextValue {
    ghost from_gives = { λ c v. v ≡ CharLiteral c };

    fn from(c: char) -> Self {
        StrContextValue::CharLiteral(c)
    }
}

impl From<&'static str> for StrContextValue {
    ghost from_gives = { λ text v. v ≡ StringLiteral text };

    fn from(text: &'static str) -> Self {
        StrContextValue::StringLiteral(text)
    }
}

/// A character that was expected.
#[derive(Drop)]
struct Quoted(char);

impl fmt::Display for Quoted {
    ghost output = { λ c. Some (char_text c.0) };

    fn fmt<W: fmt::Write>(&self, f: &mut fmt::Formatter<W>) -> fmt::Result {
        let c = self.0;
        if c == '\n' {
            write!(f, "newline")
        } else if c == '`' {
            write!(f, "'`'")
        } else if c.is_ascii_control() {
            f.write_str("`")?;
            write_escaped(c, f)?;
            f.write_str("`")
        } else {
            write!(f, "`{c}`")
        }
    }
}

/// Options of the formatter do not change the text.
impl fmt::Display for StrContextValue {
    ghost output = { λ v. Some (value_text v) };

    ghost styled_output = { λ v _. Some (value_text v) };

    fn fmt<W: fmt::Write>(&self, f: &mut fmt::Formatter<W>) -> fmt::Result {
        match self {
            StrContextValue::CharLiteral(c) => write_bare(f, Quoted(*c)),
            StrContextValue::StringLiteral(text) => write_bare(f, format_args!("`{text}`")),
            StrContextValue::Description(text) => f.write_str(text),
        }
    }
}

/// Options of the formatter do not change the text.
impl fmt::Display for StrContext {
    ghost output = { λ c. Some (context_text c) };

    ghost styled_output = { λ c _. Some (context_text c) };

    fn fmt<W: fmt::Write>(&self, f: &mut fmt::Formatter<W>) -> fmt::Result {
        match self {
            StrContext::Label(label) => write_bare(f, format_args!("invalid {label}")),
            StrContext::Expected(value) => write_bare(f, format_args!("expected {value}")),
        }
    }
}

/// Prints what a derived `Debug` would print.
impl fmt::Debug for StrContextValue {
    ghost debug_output = { value_debug };

    fn fmt<W: fmt::Write>(&self, f: &mut fmt::Formatter<W>) -> fmt::Result {
        match self {
            StrContextValue::CharLiteral(c) => write_variant(f, "CharLiteral", c),
            StrContextValue::StringLiteral(text) => write_variant(f, "StringLiteral", text),
            StrContextValue::Description(text) => write_variant(f, "Description", text),
        }
    }
}

/// Prints what a derived `Debug` would print.
impl fmt::Debug for StrContext {
    ghost debug_output = { context_debug };

    fn fmt<W: fmt::Write>(&self, f: &mut fmt::Formatter<W>) -> fmt::Result {
        match self {
            StrContext::Label(label) => write_variant(f, "Label", label),
            StrContext::Expected(value) => write_variant(f, "Expected", value),
        }
    }
}
