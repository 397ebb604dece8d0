//! The Rust crate's example `http`: the head of a request, its lines of headers with their values.
#![tactic(auto)]

use std::alloc::Global;
use winnow_ascii::line_ending;
use winnow_combinator::{delimited, preceded, repeat, separated_pair, terminated};
use winnow_error::EmptyError;
use winnow_grammar::{Octets, Reads, ask, part};
use winnow_parser::{ModalResult, Parser};
use winnow_token::{literal, one_of, take_till, take_while};

type Error = EmptyError;

/// The first line of a request: its method, its target and the version.
pub type Request<S> = (S, S, S);

/// The name of a header, and the lines of its value.
pub type Header<S> = (S, Vec<S>);

#[derive(Clone, Copy, Drop)]
struct Token;

impl<I: Octets> Reads<I, Error> for Token {
    type Output = I::Piece;

    fn read(&self, alloc: Global, input: &mut I) -> ModalResult<I::Piece, Error> {
        let marks = (b'!', b'#'..=b'\'', b'*'..=b'+', b'-'..=b'.');
        let others = (b'0'..=b'9', b'A'..=b'Z', b'^'..=b'z', (b'|', b'~'));
        ask(alloc, input, &take_while(1.., (marks, others)))
    }
}

#[derive(Clone, Copy, Drop)]
struct HeaderValue;

impl<I: Octets> Reads<I, Error> for HeaderValue {
    type Output = I::Piece;

    fn read(&self, alloc: Global, input: &mut I) -> ModalResult<I::Piece, Error> {
        let blanks = take_while(1.., (b' ', b'\t'));
        let value = delimited(blanks, take_till(1.., (b'\r', b'\n')), line_ending());
        ask(alloc, input, &value)
    }
}

#[derive(Clone, Copy, Drop)]
struct HeaderLine;

impl<I: Octets> Reads<I, Error> for HeaderLine {
    type Output = Header<I::Piece>;

    fn read(&self, alloc: Global, input: &mut I) -> ModalResult<Header<I::Piece>, Error> {
        let values = repeat::<_, Vec<I::Piece>, _>(1.., part(HeaderValue));
        let line = separated_pair(part(Token), one_of(b':'), values);
        ask(alloc, input, &line)
    }
}

#[derive(Clone, Copy, Drop)]
struct Version;

impl<I: Octets> Reads<I, Error> for Version {
    type Output = I::Piece;

    fn read(&self, alloc: Global, input: &mut I) -> ModalResult<I::Piece, Error> {
        let digits = take_while(1.., (b'0'..=b'9', b'.'));
        ask(alloc, input, &preceded(literal("HTTP/"), digits))
    }
}

#[derive(Clone, Copy, Drop)]
struct RequestLine;

impl<I: Octets> Reads<I, Error> for RequestLine {
    type Output = Request<I::Piece>;

    fn read(&self, alloc: Global, input: &mut I) -> ModalResult<Request<I::Piece>, Error> {
        let method = terminated(part(Token), take_while(1.., b' '));
        let uri = terminated(take_till(1.., b' '), take_while(1.., b' '));
        let line = (method, uri, terminated(part(Version), line_ending()));
        ask(alloc, input, &line)
    }
}

#[derive(Clone, Copy, Drop)]
struct Head;

impl<I: Octets> Reads<I, Error> for Head {
    type Output = (Request<I::Piece>, Vec<Header<I::Piece>>);

    fn read(&self, alloc: Global, input: &mut I) -> ModalResult<Self::Output, Error> {
        let headers = terminated(repeat(1.., part(HeaderLine)), line_ending());
        ask(alloc, input, &(part(RequestLine), headers))
    }
}

/// Reads the head of a request.
pub fn read_request<'a>(
    alloc: Global,
    input: &mut &'a [u8],
) -> ModalResult<(Request<&'a [u8]>, Vec<Header<&'a [u8]>>), Error> {
    part(Head).parse_next(alloc, input)
}
