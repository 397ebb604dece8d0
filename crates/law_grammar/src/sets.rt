//! Sets of tokens that are complements, functions in place of a set, and a function whose error
//! prints.

use std::alloc::Global;
use winnow_ascii::digit1;
use winnow_combinator::repeat;
use winnow_error::EmptyError;
use winnow_error_context::{ContextError, StrContext};
use winnow_grammar::try_map_in;
use winnow_parser::{ModalResult, Parser};
use winnow_sets::Complement;
use winnow_token::{any, take_while};

// Returns whether a character is a vowel of English.
fn is_vowel(c: char) -> bool {
    matches!(c, 'a' | 'e' | 'i' | 'o' | 'u')
}

/// Reads the characters of a word, up to the next blank.
pub fn read_until_blank<'a>(
    alloc: Global,
    input: &mut &'a str,
) -> ModalResult<&'a str, EmptyError> {
    take_while(1.., Complement((' ', '\t'))).parse_next(alloc, input)
}

/// Reads a character for which a function returns `true`.
pub fn read_vowel(alloc: Global, input: &mut &str) -> ModalResult<char, EmptyError> {
    any()
        .verify(|c: &char| is_vowel(*c))
        .parse_next(alloc, input)
}

/// Reads the slice of the characters for which a function returns `true`.
pub fn read_vowels<'a>(alloc: Global, input: &mut &'a str) -> ModalResult<&'a str, EmptyError> {
    let vowels = repeat::<_, (), _>(1.., any().verify(|c: &char| is_vowel(*c)));
    vowels.take().parse_next(alloc, input)
}

/// Reads a port, whose error says why it is none.
pub fn read_port(alloc: Global, input: &mut &str) -> ModalResult<u16, ContextError<StrContext>> {
    try_map_in(digit1(), |digits: &str| digits.parse::<u16>()).parse_next(alloc, input)
}
