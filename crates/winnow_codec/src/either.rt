//! One of two formats, as is known when the program runs: `EitherFormat`.

ghost use Rattle.winnow_codec.specs.Either.{SpellsEither, AreSameEither};
ghost use Rattle.winnow_codec.specs.Either.{IsFormat-Either, IsExact-Either};

use crate::{Exact, Format, Unwritten};
use std::alloc::Global;
use winnow_error::ParserError;
use winnow_parser::ModalResult;
use winnow_stream::StreamIsPartial;

/// One of two formats of the same values, as is known when the program runs: an order of bytes that
/// a header announces, or the layout of an older version.
///
/// ```
/// let little: EitherFormat<Le<u16>, Be<u16>> = EitherFormat::Left(le_u16());
/// let big: EitherFormat<Le<u16>, Be<u16>> = EitherFormat::Right(be_u16());
/// ```
#[derive(Clone, Copy, Debug, Drop)]
pub enum EitherFormat<A, B> {
    /// The one format
    Left(A),
    /// The other format
    Right(B),
}

impl<A: Format, B: Format<Value = A::Value>> Format for EitherFormat<A, B> {
    type Value = A::Value;

    ghost spells = { λ f. SpellsEither A.spells B.spells f };

    ghost same = { AreSameEither A.same B.same };

    ghost lawful = { λ f. IsFormat-Either A.same A.spells A.lawful B.same B.spells B.lawful f };

    fn read<I: StreamIsPartial<Token = u8>, E: ParserError<I>>(
        &self,
        alloc: Global,
        input: &mut I,
    ) -> ModalResult<A::Value, E> {
        match self {
            EitherFormat::Left(format) => match format.read(alloc, input) {
                Ok(value) => Ok(value),
                Err(failure) => Err(failure),
            },
            EitherFormat::Right(format) => match format.read(alloc, input) {
                Ok(value) => Ok(value),
                Err(failure) => Err(failure),
            },
        }
    }

    fn write(&self, value: &A::Value, bytes: &mut Vec<u8>) -> Result<(), Unwritten> {
        match self {
            EitherFormat::Left(format) => format.write(value, bytes),
            EitherFormat::Right(format) => format.write(value, bytes),
        }
    }
}

impl<A: Exact, B: Exact<Value = A::Value>> Exact for EitherFormat<A, B> {
    ghost exact = { IsExact-Either A.same B.same A.exact B.exact };

    fn equal(left: &A::Value, right: &A::Value) -> bool {
        A::equal(left, right)
    }
}
