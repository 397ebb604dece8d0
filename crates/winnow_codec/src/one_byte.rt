//! A byte: `byte`.

ghost use Rattle.winnow_codec.specs.Byte.{SpellsByte, IsFormat-Byte};
ghost use Rattle.winnow_codec.specs.Formats.{IsEqual};

use crate::{Exact, Format, Unwritten};
use std::alloc::Global;
use winnow_error::ParserError;
use winnow_parser::{Failure, ModalResult};
use winnow_stream::{Needed, Stream, StreamIsPartial};

/// The format of a byte; [`byte`] makes it.
#[derive(Clone, Copy)]
pub struct OneByte;

/// Returns the format of a byte.
pub fn byte() -> OneByte {
    OneByte
}

impl Format for OneByte {
    type Value = u8;

    ghost spells = { λ _. SpellsByte };

    ghost same = { IsEqual };

    ghost lawful = { λ _. IsFormat-Byte };

    fn read<I: StreamIsPartial + Stream<Token = u8>, E: ParserError<I>>(
        &self,
        alloc: Global,
        input: &mut I,
    ) -> ModalResult<u8, E> {
        match input.next_token() {
            Some(byte) => Ok(byte),
            None if input.is_partial() => Err(Failure::Incomplete(Needed::new(1))),
            None => Err(Failure::Backtrack(E::from_input(alloc, input))),
        }
    }

    fn write(&self, value: &u8, bytes: &mut Vec<u8>) -> Result<(), Unwritten> {
        match bytes.push(*value) {
            Ok(()) => Ok(()),
            Err(refused) => Err(Unwritten::Refused(refused.into())),
        }
    }
}

impl Exact for OneByte {
    ghost exact = { λ _ _ e. e };

    fn equal(left: &u8, right: &u8) -> bool {
        *left == *right
    }
}
