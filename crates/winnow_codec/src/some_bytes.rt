//! A value that at least one byte spells.

ghost use Rattle.winnow_codec.specs.WholeFormats.{SpellsSome, IsFormat-Some};

use crate::{Format, Unwritten};
use std::alloc::Global;
use winnow_error::ParserError;
use winnow_parser::{Failure, ModalResult};
use winnow_stream::StreamIsPartial;

// The format of a value that at least one byte spells.
#[derive(Clone, Copy, Drop)]
pub(crate) struct SomeBytes<F> {
    pub(crate) inner: F,
}

impl<F: Format> Format for SomeBytes<F>
where
    F::Value: Drop,
{
    type Value = F::Value;

    ghost spells = { λ f. SpellsSome (F.spells f.inner) };

    ghost same = { F.same };

    ghost lawful = { λ f. IsFormat-Some F.same (F.spells f.inner) (F.lawful f.inner) };

    fn read<I: StreamIsPartial<Token = u8>, E: ParserError<I>>(
        &self,
        alloc: Global,
        input: &mut I,
    ) -> ModalResult<F::Value, E> {
        let before = input.eof_offset();
        match self.inner.read(alloc, input) {
            Ok(value) => {
                if input.eof_offset() < before {
                    Ok(value)
                } else {
                    Err(Failure::Backtrack(E::from_input(alloc, input)))
                }
            }
            Err(failure) => Err(failure),
        }
    }

    fn write(&self, value: &F::Value, bytes: &mut Vec<u8>) -> Result<(), Unwritten> {
        let start = bytes.len();
        self.inner.write(value, bytes)?;
        if start < bytes.len() {
            Ok(())
        } else {
            Err(Unwritten::Unspelled)
        }
    }
}
