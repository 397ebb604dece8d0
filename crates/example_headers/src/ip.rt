//! The first four bytes of a header of IPv4.

use std::alloc::Global;
use winnow_binary::be_bit_fields;
use winnow_error::{EmptyError, ParserError};
use winnow_grammar::{Octets, Reads, ask, part};
use winnow_parser::{ModalResult, Parser};
use winnow_wrap::Partial;

/// What the first four bytes of a header of IPv4 say, but for the version.
#[derive(Clone, Copy, Debug, Drop, PartialEq, Eq)]
pub struct Ip {
    /// The length of the header, in units of four bytes
    pub words: u64,
    /// The class of service
    pub service: u64,
    /// Whether there is congestion on the way
    pub congestion: u64,
    /// The length of the header and what it is for, in bytes
    pub total: u64,
}

/// The parser of these four bytes. At another version than 4 it backtracks.
#[derive(Clone, Copy, Drop)]
pub struct IpStart;

impl<I: Octets, E: ParserError<I>> Reads<I, E> for IpStart {
    type Output = Ip;

    fn read(&self, alloc: Global, input: &mut I) -> ModalResult<Ip, E> {
        let fields = be_bit_fields([4, 4, 6, 2, 16]).verify_map(|fields: [u64; 5]| {
            let [version, words, service, congestion, total] = fields;
            if version != 4 {
                return None;
            }
            Some(Ip {
                words,
                service,
                congestion,
                total,
            })
        });
        ask(alloc, input, &fields)
    }
}

/// Reads the first four bytes of a header of IPv4.
pub fn read_ip<'a>(alloc: Global, input: &mut &'a [u8]) -> ModalResult<Ip, EmptyError> {
    part(IpStart).parse_next(alloc, input)
}

/// Reads the first four bytes of a header of IPv4 that comes in pieces.
pub fn read_ip_of_piece<'a>(
    alloc: Global,
    input: &mut Partial<&'a [u8]>,
) -> ModalResult<Ip, EmptyError> {
    part(IpStart).parse_next(alloc, input)
}
