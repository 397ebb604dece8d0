use winnow_combinator::{Not, Terminated};
use winnow_parser::Parser;
use winnow_token::{OneOf, TakeTill};

/// A parser of the text of a line; [`till_line_ending`] makes it.
pub type TillLineEnding = Terminated<TakeTill<(char, char)>, Not<(OneOf<char>, Not<OneOf<char>>)>>;
