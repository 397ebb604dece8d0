//! One byte alone, which stands in its type: `Only`.

ghost use Rattle.winnow_codec.specs.Known.{SpellsExactly, IsNothing, IsFormat-Exactly};
ghost use Rattle.winnow_codec.specs.Byte.{SpellsByte, IsFormat-Byte};
ghost use Rattle.winnow_codec.specs.Formats.{IsEqual};

use crate::one_byte::OneByte;
use crate::one_value::exactly;
use crate::{Format, Unwritten};
use std::alloc::Global;
use winnow_error::ParserError;
use winnow_parser::ModalResult;
use winnow_stream::StreamIsPartial;

/// The format of this byte alone, which stands for nothing.
#[derive(Clone, Copy, Drop)]
pub struct Only<const BYTE: u8>;

impl<const BYTE: u8> Format for Only<BYTE> {
    type Value = ();

    ghost spells = { λ _. SpellsExactly SpellsByte BYTE };

    ghost same = { IsNothing };

    ghost lawful = { λ _. IsFormat-Exactly IsEqual SpellsByte BYTE IsFormat-Byte };

    fn read<I: StreamIsPartial<Token = u8>, E: ParserError<I>>(
        &self,
        alloc: Global,
        input: &mut I,
    ) -> ModalResult<(), E> {
        exactly(OneByte, BYTE).read(alloc, input)
    }

    fn write(&self, _value: &(), bytes: &mut Vec<u8>) -> Result<(), Unwritten> {
        OneByte.write(&BYTE, bytes)
    }
}
