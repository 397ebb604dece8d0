//! A value after what is known: `known_then`.

ghost use Rattle.std.specs.Prelude.{◌≡◌};
ghost use Rattle.winnow_codec.specs.Known.{SpellsAfter, IsFormat-After};

use crate::{Exact, Format, Unwritten, write_two};
use std::alloc::Global;
use winnow_error::ParserError;
use winnow_parser::ModalResult;
use winnow_stream::StreamIsPartial;

/// The format of a value after what is known; [`known_then`] makes it.
#[derive(Clone, Copy, Drop)]
pub struct After<S, F> {
    formats: (S, F),
}

/// Returns the format of a value after a format of nothing.
pub fn known_then<S, F>(start: S, inner: F) -> After<S, F>
    ensures { result ≡ record { formats = (start, inner) } }
{
    After {
        formats: (start, inner),
    }
}

impl<S: Format<Value = ()>, F: Format> Format for After<S, F> {
    type Value = F::Value;

    ghost spells = { λ f. SpellsAfter (S.spells f.formats.0) (F.spells f.formats.1) };

    ghost same = { F.same };

    ghost lawful = { λ f. IsFormat-After S.same F.same (S.spells f.formats.0)
        (F.spells f.formats.1) (S.lawful f.formats.0) (F.lawful f.formats.1) };

    fn read<I: StreamIsPartial<Token = u8>, E: ParserError<I>>(
        &self,
        alloc: Global,
        input: &mut I,
    ) -> ModalResult<F::Value, E> {
        match self.formats.read(alloc, input) {
            Ok((_, value)) => Ok(value),
            Err(failure) => Err(failure),
        }
    }

    fn write(&self, value: &F::Value, bytes: &mut Vec<u8>) -> Result<(), Unwritten> {
        write_two(&self.formats, &(), value, bytes)
    }
}

impl<S: Format<Value = ()>, F: Exact> Exact for After<S, F> {
    ghost exact = { F.exact };

    fn equal(left: &F::Value, right: &F::Value) -> bool {
        F::equal(left, right)
    }
}
