//! The first four bytes of a message of DNS: its number and its flags.

use std::alloc::Global;
use winnow_binary::{be_bit_fields, be_u16};
use winnow_error::{EmptyError, ParserError};
use winnow_grammar::{Octets, Reads, ask, part};
use winnow_parser::{ModalResult, Parser};

/// What the first four bytes of a message of DNS say.
#[derive(Clone, Copy, Debug, Drop, PartialEq, Eq)]
pub struct Dns {
    /// The number of the query
    pub number: u16,
    /// Whether it is a response
    pub is_response: bool,
    /// The kind of query
    pub kind: u64,
    /// Whether recursion is wanted
    pub wants_recursion: bool,
    /// Whether recursion can be had
    pub has_recursion: bool,
    /// The code of the response
    pub code: u64,
}

/// The parser of these four bytes.
#[derive(Clone, Copy, Drop)]
pub struct DnsStart;

impl<I: Octets, E: ParserError<I>> Reads<I, E> for DnsStart {
    type Output = Dns;

    fn read(&self, alloc: Global, input: &mut I) -> ModalResult<Dns, E> {
        let flags = be_bit_fields([1, 4, 1, 1, 1, 1, 3, 4]);
        let start = (be_u16(), flags).map(|(number, flags): (u16, [u64; 8])| {
            let [response, kind, _, _, wanted, available, _, code] = flags;
            Dns {
                number,
                is_response: response == 1,
                kind,
                wants_recursion: wanted == 1,
                has_recursion: available == 1,
                code,
            }
        });
        ask(alloc, input, &start)
    }
}

/// Reads the first four bytes of a message of DNS.
pub fn read_dns<'a>(alloc: Global, input: &mut &'a [u8]) -> ModalResult<Dns, EmptyError> {
    part(DnsStart).parse_next(alloc, input)
}
