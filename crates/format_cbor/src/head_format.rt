//! The format of heads: `heads`.

ghost use Rattle.std.specs.Prelude.{◌≡◌};
ghost use Rattle.winnow_codec.specs.Formats.{IsEqual};
ghost use Rattle.format_cbor.specs.Arguments.{argument_after};
ghost use Rattle.format_cbor.specs.Heads.{SpellsHead};
ghost use Rattle.format_cbor.specs.HeadLaws.{IsFormat-Head};

use crate::head::{head_in, rank};
use crate::{Argument, Head};
use std::alloc::Global;
use winnow_codec::{Choose, Exact, Format, OneByte, Then, Unwritten, Width, byte, choose_next};
use winnow_error::ParserError;
use winnow_parser::{Failure, ModalResult};
use winnow_stream::StreamIsPartial;

/// Which argument an initial byte announces.
#[derive(Clone, Copy, Drop)]
pub struct ArgumentAfter;

impl Choose<u8> for ArgumentAfter {
    type Format = Argument;

    ghost chosen = { λ _ first. argument_after first };

    fn choose(&self, first: &u8) -> Argument {
        match *first % 32 {
            24 => Argument::Following(Width::One),
            25 => Argument::Following(Width::Two),
            26 => Argument::Following(Width::Four),
            27 => Argument::Following(Width::Eight),
            information if information < 24 => Argument::Held(information),
            _ => Argument::Missing,
        }
    }
}

/// The format of heads; [`heads`] makes it.
#[derive(Clone, Copy, Drop)]
pub struct HeadFormat;

/// Returns the format of heads (section 3), each with its shortest argument (section 4.2.1).
///
/// ```
/// let length = Head { kind: Kind::Bytes, argument: 500 };
/// assert!(rt; heads().write(&length, &mut bytes).is_ok());
/// assert_eq!(rt; bytes.as_slice(), b"\x59\x01\xf4".as_slice());
/// ```
pub fn heads() -> HeadFormat {
    HeadFormat
}

// Returns the format of an initial byte and of the argument that it announces.
fn initial() -> Then<OneByte, ArgumentAfter> {
    choose_next(byte(), ArgumentAfter)
}

impl Format for HeadFormat {
    type Value = Head;

    ghost spells = { λ _. SpellsHead };

    ghost same = { IsEqual };

    ghost lawful = { λ _. IsFormat-Head };

    fn read<I: StreamIsPartial<Token = u8>, E: ParserError<I>>(
        &self,
        alloc: Global,
        input: &mut I,
    ) -> ModalResult<Head, E> {
        match initial().read(alloc, input) {
            Ok((first, argument)) => match head_in(first, argument) {
                Some(head) => Ok(head),
                None => Err(Failure::Backtrack(E::from_input(alloc, input))),
            },
            Err(failure) => Err(failure),
        }
    }

    fn write(&self, value: &Head, bytes: &mut Vec<u8>) -> Result<(), Unwritten> {
        match value.first() {
            Some(first) => initial().write(&(first, value.argument), bytes),
            None => Err(Unwritten::Unspelled),
        }
    }
}

impl Exact for HeadFormat {
    ghost exact = { λ _ _ e. e };

    fn equal(left: &Head, right: &Head) -> bool {
        if rank(left.kind) != rank(right.kind) {
            return false;
        }
        left.argument == right.argument
    }
}
