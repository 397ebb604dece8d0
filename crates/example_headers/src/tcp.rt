//! The thirteenth and fourteenth byte of a header of TCP: where its data begin, and its flags.

use std::alloc::Global;
use winnow_binary::be_bit_fields;
use winnow_error::{EmptyError, ParserError};
use winnow_grammar::{Octets, Reads, ask, part};
use winnow_parser::{ModalResult, Parser};

/// Where the data of a segment of TCP begin, and what it does.
#[derive(Clone, Copy, Debug, Drop, PartialEq, Eq)]
pub struct Tcp {
    /// The length of the header, in units of four bytes
    pub words: u64,
    /// Whether it acknowledges
    pub is_answer: bool,
    /// Whether it resets the connection
    pub is_reset: bool,
    /// Whether it begins a connection
    pub is_first: bool,
    /// Whether it is the last one of its side
    pub is_last: bool,
}

/// The parser of these two bytes. The other four flags, and the four bits before the flags, may be
/// anything.
#[derive(Clone, Copy, Drop)]
pub struct TcpEnd;

impl<I: Octets, E: ParserError<I>> Reads<I, E> for TcpEnd {
    type Output = Tcp;

    fn read(&self, alloc: Global, input: &mut I) -> ModalResult<Tcp, E> {
        let fields = be_bit_fields([4, 7, 1, 1, 1, 1, 1]).map(|fields: [u64; 7]| {
            let [words, _, acknowledges, _, resets, begins, ends] = fields;
            Tcp {
                words,
                is_answer: acknowledges == 1,
                is_reset: resets == 1,
                is_first: begins == 1,
                is_last: ends == 1,
            }
        });
        ask(alloc, input, &fields)
    }
}

/// Reads the thirteenth and fourteenth byte of a header of TCP.
pub fn read_tcp<'a>(alloc: Global, input: &mut &'a [u8]) -> ModalResult<Tcp, EmptyError> {
    part(TcpEnd).parse_next(alloc, input)
}
