//! The tokens of the lexer: a `Token` has a `Kind` and a span in the whole input.

use std::fmt;
use std::ops::Range;
use winnow_stream::Location;

/// The kind of a token.
#[derive(Clone, Copy, Debug, PartialEq, Eq)]
pub enum Kind {
    /// Letters
    Name,
    /// Digits
    Number,
    /// One other byte that is not a blank
    Punctuation,
}

impl fmt::Display for Kind {
    fn fmt<W: fmt::Write>(&self, f: &mut fmt::Formatter<W>) -> fmt::Result {
        f.write_str(match self {
            Kind::Name => "name",
            Kind::Number => "number",
            Kind::Punctuation => "punctuation",
        })
    }
}

/// A token: its kind, and where it stands in the whole input.
#[derive(Debug, Drop)]
pub struct Token {
    /// Its kind
    pub kind: Kind,
    /// From its first byte up to the one after its last
    pub span: Range<usize>,
}

/// A token stands in the input of the lexer, also in a stream of tokens.
impl Location for Token {
    ghost token_end = { λ token. token.span.end };

    ghost token_start = { λ token. token.span.start };

    fn previous_token_end(&self) -> usize {
        self.span.end
    }

    fn current_token_start(&self) -> usize {
        self.span.start
    }
}
