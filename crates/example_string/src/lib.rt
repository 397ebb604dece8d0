//! The Rust crate's example `string`: a text with escapes, as in JSON but with `\u{1F602}`.
#![tactic(auto)]

use std::alloc::{AllocError, Global};
use winnow_ascii::{hex_digit1, multispace1};
use winnow_combinator::{alt, delimited, preceded, repeat};
use winnow_error::EmptyError;
use winnow_grammar::{AsText, Reads, Text, ask, map_in, part};
use winnow_parser::{ModalResult, Parser};
use winnow_token::{one_of, take_till};

type Error = EmptyError;

/// A part of a text: a slice of it, or what an escape stands for.
#[derive(Drop)]
enum StringFragment<S> {
    Literal(S),
    EscapedChar(char),
    EscapedWhitespace,
}

fn char_of(hex: &str) -> Option<char> {
    char::from_u32(u32::from_str_radix(hex, 16).ok()?)
}

#[derive(Clone, Copy, Drop)]
struct Unicode;

impl<I: Text> Reads<I, Error> for Unicode {
    type Output = char;

    fn read(&self, alloc: Global, input: &mut I) -> ModalResult<char, Error> {
        let code = preceded(
            one_of('u'),
            delimited(one_of('{'), hex_digit1(), one_of('}')),
        );
        let escaped = code.verify_map(|hex: I::Piece| char_of(hex.as_text()));
        ask(alloc, input, &escaped)
    }
}

#[derive(Clone, Copy, Drop)]
struct EscapedChar;

impl<I: Text> Reads<I, Error> for EscapedChar {
    type Output = char;

    fn read(&self, alloc: Global, input: &mut I) -> ModalResult<char, Error> {
        let escape = alt((
            part(Unicode),
            one_of('n').value('\n'),
            one_of('r').value('\r'),
            one_of('t').value('\t'),
            one_of('b').value('\u{08}'),
            one_of('f').value('\u{0C}'),
            one_of(('\\', '/', '"')),
        ));
        ask(alloc, input, &preceded(one_of('\\'), escape))
    }
}

fn push<S: AsText + Drop>(
    text: Result<String, AllocError>,
    fragment: StringFragment<S>,
) -> Result<String, AllocError> {
    let mut text = text?;
    match fragment {
        StringFragment::Literal(s) => text.push_str(s.as_text())?,
        StringFragment::EscapedChar(c) => text.push(c)?,
        StringFragment::EscapedWhitespace => {}
    }
    Ok(text)
}

#[derive(Clone, Copy, Drop)]
struct Quoted;

impl<I: Text> Reads<I, Error> for Quoted {
    type Output = String;

    fn read(&self, alloc: Global, input: &mut I) -> ModalResult<String, Error> {
        let fragment = alt((
            take_till(1.., ('"', '\\')).map(|s: I::Piece| StringFragment::Literal(s)),
            part(EscapedChar).map(|c: char| StringFragment::EscapedChar(c)),
            preceded(one_of('\\'), multispace1()).map(
                |_: I::Piece| StringFragment::EscapedWhitespace,
            ),
        ));
        let text = repeat::<_, (), _>(0.., fragment).fold(
            || -> Result<String, AllocError> { Ok(String::new(alloc)) },
            |text: Result<String, AllocError>, more: StringFragment<I::Piece>| push(text, more),
        );
        let text = map_in(text, |_: Global, text: Result<String, AllocError>| text);
        ask(alloc, input, &delimited(one_of('"'), text, one_of('"')))
    }
}

/// Reads a text in quotes.
pub fn parse_string(alloc: Global, input: &mut &str) -> ModalResult<String, Error> {
    part(Quoted).parse_next(alloc, input)
}
