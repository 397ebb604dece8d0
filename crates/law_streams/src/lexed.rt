//! A token as a lexer makes it.
use winnow_stream::Location;

/// A token that is not `Copy`, with its place in the input of the lexer.
#[derive(Debug, Drop, PartialEq, Eq)]
pub struct Lexed {
    pub start: usize,
    pub end: usize,
}

impl Location for Lexed {
    ghost token_end = { λ t. t.end };

    ghost token_start = { λ t. t.start };

    fn previous_token_end(&self) -> usize {
        self.end
    }

    fn current_token_start(&self) -> usize {
        self.start
    }
}
