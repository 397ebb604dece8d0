//! One value alone: `exactly`.

ghost use Rattle.std.specs.Prelude.{◌≡◌};
ghost use Rattle.winnow_codec.specs.Known.{SpellsExactly, IsNothing, IsFormat-Exactly};

use crate::{Exact, Format, Unwritten};
use std::alloc::Global;
use winnow_error::ParserError;
use winnow_parser::{Failure, ModalResult};
use winnow_stream::StreamIsPartial;

/// The format of one value alone; [`exactly`] makes it.
#[derive(Clone, Copy, Drop)]
pub struct OneValue<F, V> {
    inner: F,
    only: V,
}

/// Returns the format of this value alone. What is read is nothing, since the value is known.
pub fn exactly<F, V>(inner: F, only: V) -> OneValue<F, V>
    ensures { result ≡ record { inner = inner; only = only } }
{
    OneValue { inner, only }
}

impl<F: Exact<Value = V>, V: Drop> Format for OneValue<F, V> {
    type Value = ();

    ghost spells = { λ f. SpellsExactly (F.spells f.inner) f.only };

    ghost same = { IsNothing };

    ghost lawful = { λ f. IsFormat-Exactly F.same (F.spells f.inner) f.only (F.lawful f.inner) };

    fn read<I: StreamIsPartial<Token = u8>, E: ParserError<I>>(
        &self,
        alloc: Global,
        input: &mut I,
    ) -> ModalResult<(), E> {
        match self.inner.read(alloc, input) {
            Ok(value) => {
                if F::equal(&value, &self.only) {
                    Ok(())
                } else {
                    Err(Failure::Backtrack(E::from_input(alloc, input)))
                }
            }
            Err(failure) => Err(failure),
        }
    }

    fn write(&self, _value: &(), bytes: &mut Vec<u8>) -> Result<(), Unwritten> {
        self.inner.write(&self.only, bytes)
    }
}
