//! No format, whose value no bytes spell: `()`.

ghost use Rattle.winnow_codec.specs.Exactness.{IsExact-Nothing};
ghost use Rattle.winnow_codec.specs.Known.{SpellsNothing, IsNothing, IsFormat-Nothing};

use crate::{Exact, Format, Unwritten};
use std::alloc::Global;
use winnow_error::ParserError;
use winnow_parser::ModalResult;
use winnow_stream::StreamIsPartial;

/// Nothing, which no bytes spell: what comes after a tag that says all.
impl Format for () {
    type Value = ();

    ghost spells = { λ _. SpellsNothing };

    ghost same = { IsNothing };

    ghost lawful = { λ _. IsFormat-Nothing };

    fn read<I: StreamIsPartial<Token = u8>, E: ParserError<I>>(
        &self,
        _alloc: Global,
        _input: &mut I,
    ) -> ModalResult<(), E> {
        Ok(())
    }

    fn write(&self, _value: &(), _bytes: &mut Vec<u8>) -> Result<(), Unwritten> {
        Ok(())
    }
}

impl Exact for () {
    ghost exact = { IsExact-Nothing };

    fn equal(_left: &(), _right: &()) -> bool {
        true
    }
}
