//! Tuples of four to six formats.

ghost use Rattle.winnow_codec.specs.FormatRows.{SpellsRow4, AreSame4, IsFormat-Row4, SpellsRow5};
ghost use Rattle.winnow_codec.specs.FormatRows.{AreSame5, IsFormat-Row5, SpellsRow6, AreSame6};
ghost use Rattle.winnow_codec.specs.FormatRows.{IsFormat-Row6};
ghost use Rattle.winnow_codec.specs.Writing.{Writes};

use crate::{Format, Unwritten, write_three};
use std::alloc::Global;
use winnow_error::ParserError;
use winnow_parser::ModalResult;
use winnow_stream::StreamIsPartial;

/// Appends the bytes that spell four values, one after the other. If it fails, the bytes are what
/// they were.
pub fn write_four<A: Format, B: Format, C: Format, D: Format>(
    formats: &(A, B, C, D),
    first: &A::Value,
    second: &B::Value,
    third: &C::Value,
    fourth: &D::Value,
    bytes: &mut Vec<u8>,
) -> Result<(), Unwritten>
    ensures { Writes (SpellsRow4 (A.spells formats.now.0) (B.spells formats.now.1)
        (C.spells formats.now.2) (D.spells formats.now.3))
        (first.now, second.now, third.now, fourth.now) bytes.old.items result bytes.new.items }
{
    let start = bytes.len();
    formats.0.write(first, bytes)?;
    match write_three(
        &(&formats.1, &formats.2, &formats.3),
        second,
        third,
        fourth,
        bytes,
    ) {
        Ok(()) => Ok(()),
        Err(unwritten) => {
            bytes.truncate(start);
            Err(unwritten)
        }
    }
}

/// Four formats, one after the other: their values.
impl<A: Format, B: Format, C: Format, D: Format> Format for (A, B, C, D)
where
    A::Value: Drop,
    B::Value: Drop,
    C::Value: Drop,
{
    type Value = (A::Value, B::Value, C::Value, D::Value);

    ghost spells = { λ f. SpellsRow4 (A.spells f.0) (B.spells f.1) (C.spells f.2) (D.spells f.3) };

    ghost same = { AreSame4 A.same B.same C.same D.same };

    ghost lawful = { λ f. IsFormat-Row4 A.same B.same C.same D.same (A.spells f.0) (B.spells f.1)
        (C.spells f.2) (D.spells f.3) (A.lawful f.0) (B.lawful f.1) (C.lawful f.2) (D.lawful f.3) };

    #[inline(always)]
    fn read<I: StreamIsPartial<Token = u8>, E: ParserError<I>>(
        &self,
        alloc: Global,
        input: &mut I,
    ) -> ModalResult<(A::Value, B::Value, C::Value, D::Value), E> {
        match self.0.read(alloc, input) {
            Ok(first) => match (&self.1, &self.2, &self.3).read(alloc, input) {
                Ok((second, third, fourth)) => Ok((first, second, third, fourth)),
                Err(failure) => Err(failure),
            },
            Err(failure) => Err(failure),
        }
    }

    #[inline(always)]
    fn write(
        &self,
        value: &(A::Value, B::Value, C::Value, D::Value),
        bytes: &mut Vec<u8>,
    ) -> Result<(), Unwritten> {
        write_four(self, &value.0, &value.1, &value.2, &value.3, bytes)
    }
}

/// Appends the bytes that spell five values, one after the other. If it fails, the bytes are what
/// they were.
pub fn write_five<A: Format, B: Format, C: Format, D: Format, F: Format>(
    formats: &(A, B, C, D, F),
    first: &A::Value,
    second: &B::Value,
    third: &C::Value,
    fourth: &D::Value,
    fifth: &F::Value,
    bytes: &mut Vec<u8>,
) -> Result<(), Unwritten>
    ensures { Writes (SpellsRow5 (A.spells formats.now.0) (B.spells formats.now.1)
        (C.spells formats.now.2) (D.spells formats.now.3) (F.spells formats.now.4))
        (first.now, second.now, third.now, fourth.now, fifth.now) bytes.old.items result
        bytes.new.items }
{
    let start = bytes.len();
    formats.0.write(first, bytes)?;
    match write_four(
        &(&formats.1, &formats.2, &formats.3, &formats.4),
        second,
        third,
        fourth,
        fifth,
        bytes,
    ) {
        Ok(()) => Ok(()),
        Err(unwritten) => {
            bytes.truncate(start);
            Err(unwritten)
        }
    }
}

/// Five formats, one after the other: their values.
impl<A: Format, B: Format, C: Format, D: Format, F: Format> Format for (A, B, C, D, F)
where
    A::Value: Drop,
    B::Value: Drop,
    C::Value: Drop,
    D::Value: Drop,
{
    type Value = (A::Value, B::Value, C::Value, D::Value, F::Value);

    ghost spells = { λ f. SpellsRow5 (A.spells f.0) (B.spells f.1) (C.spells f.2) (D.spells f.3)
        (F.spells f.4) };

    ghost same = { AreSame5 A.same B.same C.same D.same F.same };

    ghost lawful = { λ f. IsFormat-Row5 A.same B.same C.same D.same F.same (A.spells f.0)
        (B.spells f.1) (C.spells f.2) (D.spells f.3) (F.spells f.4) (A.lawful f.0) (B.lawful f.1)
        (C.lawful f.2) (D.lawful f.3) (F.lawful f.4) };

    #[inline(always)]
    fn read<I: StreamIsPartial<Token = u8>, E: ParserError<I>>(
        &self,
        alloc: Global,
        input: &mut I,
    ) -> ModalResult<(A::Value, B::Value, C::Value, D::Value, F::Value), E> {
        match self.0.read(alloc, input) {
            Ok(first) => match (&self.1, &self.2, &self.3, &self.4).read(alloc, input) {
                Ok((second, third, fourth, fifth)) => Ok((first, second, third, fourth, fifth)),
                Err(failure) => Err(failure),
            },
            Err(failure) => Err(failure),
        }
    }

    #[inline(always)]
    fn write(
        &self,
        value: &(A::Value, B::Value, C::Value, D::Value, F::Value),
        bytes: &mut Vec<u8>,
    ) -> Result<(), Unwritten> {
        write_five(
            self, &value.0, &value.1, &value.2, &value.3, &value.4, bytes,
        )
    }
}

/// Appends the bytes that spell six values, one after the other. If it fails, the bytes are what
/// they were.
pub fn write_six<A: Format, B: Format, C: Format, D: Format, F: Format, G: Format>(
    formats: &(A, B, C, D, F, G),
    first: &A::Value,
    second: &B::Value,
    third: &C::Value,
    fourth: &D::Value,
    fifth: &F::Value,
    sixth: &G::Value,
    bytes: &mut Vec<u8>,
) -> Result<(), Unwritten>
    ensures { Writes (SpellsRow6 (A.spells formats.now.0) (B.spells formats.now.1)
        (C.spells formats.now.2) (D.spells formats.now.3) (F.spells formats.now.4)
        (G.spells formats.now.5))
        (first.now, second.now, third.now, fourth.now, fifth.now, sixth.now) bytes.old.items result
        bytes.new.items }
{
    let start = bytes.len();
    formats.0.write(first, bytes)?;
    match write_five(
        &(&formats.1, &formats.2, &formats.3, &formats.4, &formats.5),
        second,
        third,
        fourth,
        fifth,
        sixth,
        bytes,
    ) {
        Ok(()) => Ok(()),
        Err(unwritten) => {
            bytes.truncate(start);
            Err(unwritten)
        }
    }
}

/// Six formats, one after the other: their values.
impl<A: Format, B: Format, C: Format, D: Format, F: Format, G: Format> Format for (A, B, C, D, F, G)
where
    A::Value: Drop,
    B::Value: Drop,
    C::Value: Drop,
    D::Value: Drop,
    F::Value: Drop,
{
    type Value = (A::Value, B::Value, C::Value, D::Value, F::Value, G::Value);

    ghost spells = { λ f. SpellsRow6 (A.spells f.0) (B.spells f.1) (C.spells f.2) (D.spells f.3)
        (F.spells f.4) (G.spells f.5) };

    ghost same = { AreSame6 A.same B.same C.same D.same F.same G.same };

    ghost lawful = { λ f. IsFormat-Row6 A.same B.same C.same D.same F.same G.same (A.spells f.0)
        (B.spells f.1) (C.spells f.2) (D.spells f.3) (F.spells f.4) (G.spells f.5) (A.lawful f.0)
        (B.lawful f.1) (C.lawful f.2) (D.lawful f.3) (F.lawful f.4) (G.lawful f.5) };

    #[inline(always)]
    fn read<I: StreamIsPartial<Token = u8>, E: ParserError<I>>(
        &self,
        alloc: Global,
        input: &mut I,
    ) -> ModalResult<(A::Value, B::Value, C::Value, D::Value, F::Value, G::Value), E> {
        match self.0.read(alloc, input) {
            Ok(first) => match (&self.1, &self.2, &self.3, &self.4, &self.5).read(alloc, input) {
                Ok((second, third, fourth, fifth, sixth)) => Ok((
                    first, second, third, fourth, fifth, sixth,
                )),
                Err(failure) => Err(failure),
            },
            Err(failure) => Err(failure),
        }
    }

    #[inline(always)]
    fn write(
        &self,
        value: &(A::Value, B::Value, C::Value, D::Value, F::Value, G::Value),
        bytes: &mut Vec<u8>,
    ) -> Result<(), Unwritten> {
        write_six(
            self, &value.0, &value.1, &value.2, &value.3, &value.4, &value.5, bytes,
        )
    }
}
