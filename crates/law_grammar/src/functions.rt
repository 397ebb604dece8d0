//! Functions as parsers.

ghost use Rattle.winnow_grammar.specs.AnyAnswer.{ReadsText, ReadsBytes};

use std::alloc::Global;
use winnow_ascii::Class;
use winnow_combinator::{preceded, separated_pair};
use winnow_error::EmptyError;
use winnow_grammar::{ask, from_fn};
use winnow_parser::{ModalResult, Parser};
use winnow_token::{one_of, take_while};

// Reads two hexadecimal digits of a text.
fn hex_primary(alloc: Global, input: &mut &str) -> ModalResult<u8, EmptyError>
    ensures { ReadsText input.old result input.new }
{
    let digits = take_while(2, Class::HexDigit);
    let primary = digits.verify_map(|it: &str| u8::from_str_radix(it, 16).ok());
    ask(alloc, input, &primary)
}

/// Reads a sign, and three numbers by a function.
pub fn color(alloc: Global, input: &mut &str) -> ModalResult<(u8, u8, u8), EmptyError> {
    let primaries = (
        from_fn(hex_primary),
        from_fn(hex_primary),
        from_fn(hex_primary),
    );
    preceded(one_of('#'), primaries).parse_next(alloc, input)
}

// Reads a digit of bytes.
fn digit(alloc: Global, input: &mut &[u8]) -> ModalResult<u8, EmptyError>
    ensures { ReadsBytes input.old result input.new }
{
    let digit = one_of(b'0'..=b'9').map(|digit: u8| digit & 15);
    ask(alloc, input, &digit)
}

/// Reads two digits with a dot between them by a function.
pub fn version(alloc: Global, input: &mut &[u8]) -> ModalResult<(u8, u8), EmptyError> {
    separated_pair(from_fn(digit), one_of(b'.'), from_fn(digit)).parse_next(alloc, input)
}
