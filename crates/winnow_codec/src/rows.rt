//! Tuples of two and three formats, whose values are spelled one after the other.

ghost use Rattle.winnow_codec.specs.Exactness.{IsExact-Both, IsExact-Row3};
ghost use Rattle.winnow_codec.specs.FormatRows.{SpellsPair, AreBothSame, IsFormat-Pair, SpellsRow3};
ghost use Rattle.winnow_codec.specs.FormatRows.{AreSame3, IsFormat-Row3};
ghost use Rattle.winnow_codec.specs.Writing.{Writes};

use crate::{Exact, Format, Unwritten};
use std::alloc::Global;
use winnow_error::ParserError;
use winnow_parser::ModalResult;
use winnow_stream::StreamIsPartial;

/// Appends the bytes that spell two values, one after the other. If it fails, the bytes are what
/// they were.
pub fn write_two<A: Format, B: Format>(
    formats: &(A, B),
    first: &A::Value,
    second: &B::Value,
    bytes: &mut Vec<u8>,
) -> Result<(), Unwritten>
    ensures { Writes (SpellsPair (A.spells formats.now.0) (B.spells formats.now.1))
        (first.now, second.now) bytes.old.items result bytes.new.items }
{
    let start = bytes.len();
    formats.0.write(first, bytes)?;
    match formats.1.write(second, bytes) {
        Ok(()) => Ok(()),
        Err(unwritten) => {
            bytes.truncate(start);
            Err(unwritten)
        }
    }
}

/// Two formats, one after the other: their values.
impl<A: Format, B: Format> Format for (A, B)
where
    A::Value: Drop,
{
    type Value = (A::Value, B::Value);

    ghost spells = { λ f. SpellsPair (A.spells f.0) (B.spells f.1) };

    ghost same = { AreBothSame A.same B.same };

    ghost lawful = { λ f. IsFormat-Pair A.same B.same (A.spells f.0) (B.spells f.1) (A.lawful f.0)
        (B.lawful f.1) };

    #[inline(always)]
    fn read<I: StreamIsPartial<Token = u8>, E: ParserError<I>>(
        &self,
        alloc: Global,
        input: &mut I,
    ) -> ModalResult<(A::Value, B::Value), E> {
        match self.0.read(alloc, input) {
            Ok(first) => match self.1.read(alloc, input) {
                Ok(second) => Ok((first, second)),
                Err(failure) => Err(failure),
            },
            Err(failure) => Err(failure),
        }
    }

    #[inline(always)]
    fn write(&self, value: &(A::Value, B::Value), bytes: &mut Vec<u8>) -> Result<(), Unwritten> {
        write_two(self, &value.0, &value.1, bytes)
    }
}

impl<A: Exact, B: Exact> Exact for (A, B)
where
    A::Value: Drop,
{
    ghost exact = { IsExact-Both A.same B.same A.exact B.exact };

    fn equal(left: &(A::Value, B::Value), right: &(A::Value, B::Value)) -> bool {
        A::equal(&left.0, &right.0) && B::equal(&left.1, &right.1)
    }
}

/// Appends the bytes that spell three values, one after the other. If it fails, the bytes are what
/// they were.
pub fn write_three<A: Format, B: Format, C: Format>(
    formats: &(A, B, C),
    first: &A::Value,
    second: &B::Value,
    third: &C::Value,
    bytes: &mut Vec<u8>,
) -> Result<(), Unwritten>
    ensures { Writes (SpellsRow3 (A.spells formats.now.0) (B.spells formats.now.1)
        (C.spells formats.now.2))
        (first.now, second.now, third.now) bytes.old.items result bytes.new.items }
{
    let start = bytes.len();
    formats.0.write(first, bytes)?;
    match write_two(&(&formats.1, &formats.2), second, third, bytes) {
        Ok(()) => Ok(()),
        Err(unwritten) => {
            bytes.truncate(start);
            Err(unwritten)
        }
    }
}

/// Three formats, one after the other: their values.
impl<A: Format, B: Format, C: Format> Format for (A, B, C)
where
    A::Value: Drop,
    B::Value: Drop,
{
    type Value = (A::Value, B::Value, C::Value);

    ghost spells = { λ f. SpellsRow3 (A.spells f.0) (B.spells f.1) (C.spells f.2) };

    ghost same = { AreSame3 A.same B.same C.same };

    ghost lawful = { λ f. IsFormat-Row3 A.same B.same C.same (A.spells f.0) (B.spells f.1)
        (C.spells f.2) (A.lawful f.0) (B.lawful f.1) (C.lawful f.2) };

    #[inline(always)]
    fn read<I: StreamIsPartial<Token = u8>, E: ParserError<I>>(
        &self,
        alloc: Global,
        input: &mut I,
    ) -> ModalResult<(A::Value, B::Value, C::Value), E> {
        match self.0.read(alloc, input) {
            Ok(first) => match (&self.1, &self.2).read(alloc, input) {
                Ok((second, third)) => Ok((first, second, third)),
                Err(failure) => Err(failure),
            },
            Err(failure) => Err(failure),
        }
    }

    #[inline(always)]
    fn write(
        &self,
        value: &(A::Value, B::Value, C::Value),
        bytes: &mut Vec<u8>,
    ) -> Result<(), Unwritten> {
        write_three(self, &value.0, &value.1, &value.2, bytes)
    }
}

impl<A: Exact, B: Exact, C: Exact> Exact for (A, B, C)
where
    A::Value: Drop,
    B::Value: Drop,
{
    ghost exact = { IsExact-Row3 A.same B.same C.same A.exact B.exact C.exact };

    fn equal(
        left: &(A::Value, B::Value, C::Value),
        right: &(A::Value, B::Value, C::Value),
    ) -> bool {
        A::equal(&left.0, &right.0) && B::equal(&left.1, &right.1) && C::equal(&left.2, &right.2)
    }
}
