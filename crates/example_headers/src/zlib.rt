//! The two bytes before compressed data in the format of zlib, whose lowest bits come first.

use std::alloc::Global;
use winnow_binary::le_bit_fields;
use winnow_error::{EmptyError, ParserError};
use winnow_grammar::{Octets, Reads, ask, part};
use winnow_parser::{ModalResult, Parser};

/// What the two bytes say, but for the method, which is DEFLATE, and the bits that check them.
#[derive(Clone, Copy, Debug, Drop, PartialEq, Eq)]
pub struct Zlib {
    /// The size of the window is 2 to the power of this number and 8
    pub window: u64,
    /// Whether the number of a dictionary follows
    pub has_dictionary: bool,
    /// How hard the data were compressed, from 0 to 3
    pub level: u64,
}

/// The parser of these two bytes. At another method than DEFLATE, which is 8, it backtracks.
#[derive(Clone, Copy, Drop)]
pub struct ZlibStart;

impl<I: Octets, E: ParserError<I>> Reads<I, E> for ZlibStart {
    type Output = Zlib;

    fn read(&self, alloc: Global, input: &mut I) -> ModalResult<Zlib, E> {
        let fields = le_bit_fields([4, 4, 5, 1, 2]).verify_map(|fields: [u64; 5]| {
            let [method, window, _, dictionary, level] = fields;
            if method != 8 {
                return None;
            }
            Some(Zlib {
                window,
                has_dictionary: dictionary == 1,
                level,
            })
        });
        ask(alloc, input, &fields)
    }
}

/// Reads the two bytes before compressed data in the format of zlib.
pub fn read_zlib<'a>(alloc: Global, input: &mut &'a [u8]) -> ModalResult<Zlib, EmptyError> {
    part(ZlibStart).parse_next(alloc, input)
}
