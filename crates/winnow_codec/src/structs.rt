//! A struct by its fields: `Fields`, `struct_of`.

ghost use Rattle.std.specs.Prelude.{◌≡◌, ◌↔◌, IsTrue};
ghost use Rattle.winnow_codec.specs.Exactness.{TellsByParts, IsExact-Parts};
ghost use Rattle.winnow_codec.specs.FormatParts.{SpellsParts, HaveSameParts, IsFormat-Parts};
ghost use Rattle.winnow_codec.specs.Writing.{Writes};

use crate::{Exact, Format, Unwritten};
use std::alloc::Global;
use winnow_error::ParserError;
use winnow_parser::ModalResult;
use winnow_stream::StreamIsPartial;

/// A struct whose fields a format spells, one after the other.
pub trait Fields: Sized {
    /// The format of the fields.
    type Format: Format + Drop;

    // The fields, as one value.
    ghost fields: { Self → Self.Format.Value };

    /// Returns the struct that has these fields.
    fn from_fields(values: <Self::Format as Format>::Value) -> Self
        ensures { fields result ≡ values };

    /// Appends the bytes that spell the fields.
    fn write_fields(&self, format: &Self::Format, bytes: &mut Vec<u8>) -> Result<(), Unwritten>
        ensures { Writes (Self.Format.spells format.now) (fields self.now) bytes.old.items result
            bytes.new.items };
}

/// A struct that is equal to another one if its fields are. Then the values of its format are
/// compared ([`Exact`]).
pub trait ExactFields: Fields {
    /// Returns whether the structs are equal.
    fn equal(left: &Self, right: &Self) -> bool
        ensures { IsTrue result ↔ left.now ≡ right.now };

    // Structs of equal fields are equal.
    ghost tells: { TellsByParts Self.fields };
}

/// The format of a struct that is spelled as its fields are; [`struct_of`] makes it.
#[derive(Drop)]
pub struct Struct<S: Fields> {
    fields: S::Format,
}

/// Returns the format of a struct by that of its fields.
pub fn struct_of<S: Fields>(fields: S::Format) -> Struct<S>
    ensures { result ≡ record { fields = fields } }
{
    Struct { fields }
}

impl<S: Fields> Format for Struct<S> {
    type Value = S;

    ghost spells = { λ f. SpellsParts S.fields (S.Format.spells f.fields) };

    ghost same = { HaveSameParts S.fields S.Format.same };

    ghost lawful = { λ f. IsFormat-Parts S.fields S.Format.same (S.Format.spells f.fields)
        (S.Format.lawful f.fields) };

    fn read<I: StreamIsPartial<Token = u8>, E: ParserError<I>>(
        &self,
        alloc: Global,
        input: &mut I,
    ) -> ModalResult<S, E> {
        match self.fields.read(alloc, input) {
            Ok(values) => Ok(S::from_fields(values)),
            Err(failure) => Err(failure),
        }
    }

    fn write(&self, value: &S, bytes: &mut Vec<u8>) -> Result<(), Unwritten> {
        value.write_fields(&self.fields, bytes)
    }
}

impl<S: ExactFields> Exact for Struct<S>
where
    S::Format: Exact,
{
    ghost exact = { IsExact-Parts S.fields S.Format.same S.tells S.Format.exact };

    fn equal(left: &S, right: &S) -> bool {
        S::equal(left, right)
    }
}
