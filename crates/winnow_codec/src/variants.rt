//! An enum of one's own over the cases of a tag: `Variants`, `enum_of`.

ghost use Rattle.std.specs.Prelude.{◌≡◌};
ghost use Rattle.winnow_codec.specs.FormatParts.{SpellsParts, HaveSameParts, IsFormat-Parts};
ghost use Rattle.winnow_codec.specs.Writing.{Writes};

use crate::{Format, Unwritten};
use std::alloc::Global;
use winnow_error::ParserError;
use winnow_parser::ModalResult;
use winnow_stream::StreamIsPartial;

/// An enum whose variants are the cases of a format, as [`by_tag`](crate::by_tag) makes it.
pub trait Variants: Sized {
    /// The format of the cases.
    type Format: Format + Drop;

    // The variant with its value, as the cases have it.
    ghost variant: { Self → Self.Format.Value };

    /// Returns the enum of this case.
    fn from_variant(value: <Self::Format as Format>::Value) -> Self
        ensures { variant result ≡ value };

    /// Appends the bytes that spell the variant, by [`write_first`](crate::write_first) and the
    /// functions beside it.
    fn write_variant(&self, format: &Self::Format, bytes: &mut Vec<u8>) -> Result<(), Unwritten>
        ensures { Writes (Self.Format.spells format.now) (variant self.now) bytes.old.items result
            bytes.new.items };
}

/// The format of an enum that is spelled as its variants are; [`enum_of`] makes it.
#[derive(Drop)]
pub struct EnumOf<V: Variants> {
    cases: V::Format,
}

/// Returns the format of an enum by that of its cases.
pub fn enum_of<V: Variants>(cases: V::Format) -> EnumOf<V>
    ensures { result ≡ record { cases = cases } }
{
    EnumOf { cases }
}

impl<V: Variants> Format for EnumOf<V> {
    type Value = V;

    ghost spells = { λ f. SpellsParts V.variant (V.Format.spells f.cases) };

    ghost same = { HaveSameParts V.variant V.Format.same };

    ghost lawful = { λ f. IsFormat-Parts V.variant V.Format.same (V.Format.spells f.cases)
        (V.Format.lawful f.cases) };

    fn read<I: StreamIsPartial<Token = u8>, E: ParserError<I>>(
        &self,
        alloc: Global,
        input: &mut I,
    ) -> ModalResult<V, E> {
        match self.cases.read(alloc, input) {
            Ok(value) => Ok(V::from_variant(value)),
            Err(failure) => Err(failure),
        }
    }

    fn write(&self, value: &V, bytes: &mut Vec<u8>) -> Result<(), Unwritten> {
        value.write_variant(&self.cases, bytes)
    }
}
