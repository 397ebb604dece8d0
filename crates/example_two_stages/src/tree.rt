//! The tree of a formula: each node with the range of its text in the source.

ghost use Rattle.std.specs.Prelude.{◌≡◌};
ghost use Rattle.example_two_stages.specs.Trees.{range_of};

use std::fmt;
use std::ops::Range;

/// An operator between two formulas.
#[derive(Clone, Copy, Debug, PartialEq, Eq)]
pub enum Operator {
    /// `+`
    Plus,
    /// `-`
    Minus,
    /// `*`
    Times,
    /// `/`
    Over,
}

impl fmt::Display for Operator {
    fn fmt<W: fmt::Write>(&self, f: &mut fmt::Formatter<W>) -> fmt::Result {
        f.write_str(match self {
            Operator::Plus => "+",
            Operator::Minus => "-",
            Operator::Times => "*",
            Operator::Over => "/",
        })
    }
}

/// A formula. Each node begins with its range in the source, from the first byte of its first token
/// up to the one after the last byte of its last token.
#[derive(Debug, Drop)]
pub enum Tree {
    /// Digits
    Number(Range<usize>),
    /// Letters
    Name(Range<usize>),
    /// A formula in parentheses, which are in its range
    Group(Range<usize>, Box<Tree>),
    /// A minus and what it negates
    Negative(Range<usize>, Box<Tree>),
    /// An operator between two formulas
    Binary(Range<usize>, Operator, Box<Tree>, Box<Tree>),
}

impl Tree {
    /// Returns the range of the formula in the source.
    pub fn span(&self) -> Range<usize>
        ensures { result ≡ range_of self.now }
    {
        match self {
            Tree::Number(span) => span.start..span.end,
            Tree::Name(span) => span.start..span.end,
            Tree::Group(span, _) => span.start..span.end,
            Tree::Negative(span, _) => span.start..span.end,
            Tree::Binary(span, _, _, _) => span.start..span.end,
        }
    }
}
