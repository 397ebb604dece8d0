//! Tuples of seven and eight formats.

ghost use Rattle.winnow_codec.specs.FormatRows.{SpellsRow7, AreSame7, IsFormat-Row7};
ghost use Rattle.winnow_codec.specs.FormatRows.{SpellsRow8, AreSame8, IsFormat-Row8};
ghost use Rattle.winnow_codec.specs.Writing.{Writes};

use crate::{Format, Unwritten, write_six};
use std::alloc::Global;
use winnow_error::ParserError;
use winnow_parser::ModalResult;
use winnow_stream::StreamIsPartial;

/// Appends the bytes that spell seven values, one after the other. If it fails, the bytes are what
/// they were.
pub fn write_seven<A: Format, B: Format, C: Format, D: Format, F: Format, G: Format, H: Format>(
    formats: &(A, B, C, D, F, G, H),
    first: &A::Value,
    second: &B::Value,
    third: &C::Value,
    fourth: &D::Value,
    fifth: &F::Value,
    sixth: &G::Value,
    seventh: &H::Value,
    bytes: &mut Vec<u8>,
) -> Result<(), Unwritten>
    ensures { Writes (SpellsRow7 (A.spells formats.now.0) (B.spells formats.now.1)
        (C.spells formats.now.2) (D.spells formats.now.3) (F.spells formats.now.4)
        (G.spells formats.now.5) (H.spells formats.now.6))
        (first.now, second.now, third.now, fourth.now, fifth.now, sixth.now, seventh.now)
        bytes.old.items result bytes.new.items }
{
    let start = bytes.len();
    formats.0.write(first, bytes)?;
    match write_six(
        &(
            &formats.1, &formats.2, &formats.3, &formats.4, &formats.5, &formats.6,
        ),
        second,
        third,
        fourth,
        fifth,
        sixth,
        seventh,
        bytes,
    ) {
        Ok(()) => Ok(()),
        Err(unwritten) => {
            bytes.truncate(start);
            Err(unwritten)
        }
    }
}

/// Seven formats, one after the other: their values.
impl<A: Format, B: Format, C: Format, D: Format, F: Format, G: Format, H: Format> Format
    for (A, B, C, D, F, G, H)
where
    A::Value: Drop,
    B::Value: Drop,
    C::Value: Drop,
    D::Value: Drop,
    F::Value: Drop,
    G::Value: Drop,
{
    type Value = (
        A::Value,
        B::Value,
        C::Value,
        D::Value,
        F::Value,
        G::Value,
        H::Value,
    );

    ghost spells = { λ f. SpellsRow7 (A.spells f.0) (B.spells f.1) (C.spells f.2) (D.spells f.3)
        (F.spells f.4) (G.spells f.5) (H.spells f.6) };

    ghost same = { AreSame7 A.same B.same C.same D.same F.same G.same H.same };

    ghost lawful = { λ f. IsFormat-Row7 A.same B.same C.same D.same F.same G.same H.same
        (A.spells f.0) (B.spells f.1) (C.spells f.2) (D.spells f.3) (F.spells f.4) (G.spells f.5)
        (H.spells f.6) (A.lawful f.0) (B.lawful f.1) (C.lawful f.2) (D.lawful f.3) (F.lawful f.4)
        (G.lawful f.5) (H.lawful f.6) };

    #[inline(always)]
    fn read<I: StreamIsPartial<Token = u8>, E: ParserError<I>>(
        &self,
        alloc: Global,
        input: &mut I,
    ) -> ModalResult<
        (
            A::Value,
            B::Value,
            C::Value,
            D::Value,
            F::Value,
            G::Value,
            H::Value,
        ),
        E,
    > {
        match self.0.read(alloc, input) {
            Ok(first) => match (&self.1, &self.2, &self.3, &self.4, &self.5, &self.6).read(
                alloc, input,
            ) {
                Ok((second, third, fourth, fifth, sixth, seventh)) => Ok((
                    first, second, third, fourth, fifth, sixth, seventh,
                )),
                Err(failure) => Err(failure),
            },
            Err(failure) => Err(failure),
        }
    }

    #[inline(always)]
    fn write(
        &self,
        value: &(
            A::Value,
            B::Value,
            C::Value,
            D::Value,
            F::Value,
            G::Value,
            H::Value,
        ),
        bytes: &mut Vec<u8>,
    ) -> Result<(), Unwritten> {
        write_seven(
            self, &value.0, &value.1, &value.2, &value.3, &value.4, &value.5, &value.6, bytes,
        )
    }
}

/// Appends the bytes that spell eight values, one after the other. If it fails, the bytes are what
/// they were.
pub fn write_eight<
    A: Format,
    B: Format,
    C: Format,
    D: Format,
    F: Format,
    G: Format,
    H: Format,
    J: Format,
>(
    formats: &(A, B, C, D, F, G, H, J),
    first: &A::Value,
    second: &B::Value,
    third: &C::Value,
    fourth: &D::Value,
    fifth: &F::Value,
    sixth: &G::Value,
    seventh: &H::Value,
    eighth: &J::Value,
    bytes: &mut Vec<u8>,
) -> Result<(), Unwritten>
    ensures { Writes (SpellsRow8 (A.spells formats.now.0) (B.spells formats.now.1)
        (C.spells formats.now.2) (D.spells formats.now.3) (F.spells formats.now.4)
        (G.spells formats.now.5) (H.spells formats.now.6) (J.spells formats.now.7)) (
          first.now,
          second.now,
          third.now,
          fourth.now,
          fifth.now,
          sixth.now,
          seventh.now,
          eighth.now,
        ) bytes.old.items result bytes.new.items }
{
    let start = bytes.len();
    formats.0.write(first, bytes)?;
    match write_seven(
        &(
            &formats.1, &formats.2, &formats.3, &formats.4, &formats.5, &formats.6, &formats.7,
        ),
        second,
        third,
        fourth,
        fifth,
        sixth,
        seventh,
        eighth,
        bytes,
    ) {
        Ok(()) => Ok(()),
        Err(unwritten) => {
            bytes.truncate(start);
            Err(unwritten)
        }
    }
}

/// Eight formats, one after the other: their values.
impl<A: Format, B: Format, C: Format, D: Format, F: Format, G: Format, H: Format, J: Format> Format
    for (A, B, C, D, F, G, H, J)
where
    A::Value: Drop,
    B::Value: Drop,
    C::Value: Drop,
    D::Value: Drop,
    F::Value: Drop,
    G::Value: Drop,
    H::Value: Drop,
{
    type Value = (
        A::Value,
        B::Value,
        C::Value,
        D::Value,
        F::Value,
        G::Value,
        H::Value,
        J::Value,
    );

    ghost spells = { λ f. SpellsRow8 (A.spells f.0) (B.spells f.1) (C.spells f.2) (D.spells f.3)
        (F.spells f.4) (G.spells f.5) (H.spells f.6) (J.spells f.7) };

    ghost same = { AreSame8 A.same B.same C.same D.same F.same G.same H.same J.same };

    ghost lawful = { λ f. IsFormat-Row8 A.same B.same C.same D.same F.same G.same H.same J.same
        (A.spells f.0) (B.spells f.1) (C.spells f.2) (D.spells f.3) (F.spells f.4) (G.spells f.5)
        (H.spells f.6) (J.spells f.7) (A.lawful f.0) (B.lawful f.1) (C.lawful f.2) (D.lawful f.3)
        (F.lawful f.4) (G.lawful f.5) (H.lawful f.6) (J.lawful f.7) };

    #[inline(always)]
    fn read<I: StreamIsPartial<Token = u8>, E: ParserError<I>>(
        &self,
        alloc: Global,
        input: &mut I,
    ) -> ModalResult<
        (
            A::Value,
            B::Value,
            C::Value,
            D::Value,
            F::Value,
            G::Value,
            H::Value,
            J::Value,
        ),
        E,
    > {
        match self.0.read(alloc, input) {
            Ok(first) => match (
                &self.1, &self.2, &self.3, &self.4, &self.5, &self.6, &self.7,
            )
                .read(alloc, input)
            {
                Ok((second, third, fourth, fifth, sixth, seventh, eighth)) => Ok((
                    first, second, third, fourth, fifth, sixth, seventh, eighth,
                )),
                Err(failure) => Err(failure),
            },
            Err(failure) => Err(failure),
        }
    }

    #[inline(always)]
    fn write(
        &self,
        value: &(
            A::Value,
            B::Value,
            C::Value,
            D::Value,
            F::Value,
            G::Value,
            H::Value,
            J::Value,
        ),
        bytes: &mut Vec<u8>,
    ) -> Result<(), Unwritten> {
        write_eight(
            self, &value.0, &value.1, &value.2, &value.3, &value.4, &value.5, &value.6, &value.7,
            bytes,
        )
    }
}
