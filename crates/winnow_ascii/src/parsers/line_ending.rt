use winnow_combinator::Alt;
use winnow_parser::{Parser, Taken};
use winnow_token::{Literal, OneOf};

/// A parser of the end of a line; [`line_ending`] makes it.
pub type LineEnding<I, E> = Alt<(Taken<OneOf<char>, I, E>, Literal<&'static str>)>;
