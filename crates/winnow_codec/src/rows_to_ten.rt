//! Tuples of nine and ten formats.

ghost use Rattle.winnow_codec.specs.FormatRows.{SpellsRow9, AreSame9, IsFormat-Row9};
ghost use Rattle.winnow_codec.specs.FormatRows.{SpellsRow10, AreSame10, IsFormat-Row10};
ghost use Rattle.winnow_codec.specs.Writing.{Writes};

use crate::{Format, Unwritten, write_eight};
use std::alloc::Global;
use winnow_error::ParserError;
use winnow_parser::ModalResult;
use winnow_stream::StreamIsPartial;

/// Appends the bytes that spell nine values, one after the other. If it fails, the bytes are what
/// they were.
pub fn write_nine<
    A: Format,
    B: Format,
    C: Format,
    D: Format,
    F: Format,
    G: Format,
    H: Format,
    J: Format,
    K: Format,
>(
    formats: &(A, B, C, D, F, G, H, J, K),
    first: &A::Value,
    second: &B::Value,
    third: &C::Value,
    fourth: &D::Value,
    fifth: &F::Value,
    sixth: &G::Value,
    seventh: &H::Value,
    eighth: &J::Value,
    ninth: &K::Value,
    bytes: &mut Vec<u8>,
) -> Result<(), Unwritten>
    ensures { Writes (SpellsRow9 (A.spells formats.now.0) (B.spells formats.now.1)
        (C.spells formats.now.2) (D.spells formats.now.3) (F.spells formats.now.4)
        (G.spells formats.now.5) (H.spells formats.now.6) (J.spells formats.now.7)
        (K.spells formats.now.8)) (
          first.now,
          second.now,
          third.now,
          fourth.now,
          fifth.now,
          sixth.now,
          seventh.now,
          eighth.now,
          ninth.now,
        ) bytes.old.items result bytes.new.items }
{
    let start = bytes.len();
    formats.0.write(first, bytes)?;
    match write_eight(
        &(
            &formats.1, &formats.2, &formats.3, &formats.4, &formats.5, &formats.6, &formats.7,
            &formats.8,
        ),
        second,
        third,
        fourth,
        fifth,
        sixth,
        seventh,
        eighth,
        ninth,
        bytes,
    ) {
        Ok(()) => Ok(()),
        Err(unwritten) => {
            bytes.truncate(start);
            Err(unwritten)
        }
    }
}

/// Nine formats, one after the other: their values.
impl<
    A: Format,
    B: Format,
    C: Format,
    D: Format,
    F: Format,
    G: Format,
    H: Format,
    J: Format,
    K: Format,
> Format for (A, B, C, D, F, G, H, J, K)
where
    A::Value: Drop,
    B::Value: Drop,
    C::Value: Drop,
    D::Value: Drop,
    F::Value: Drop,
    G::Value: Drop,
    H::Value: Drop,
    J::Value: Drop,
{
    type Value = (
        A::Value,
        B::Value,
        C::Value,
        D::Value,
        F::Value,
        G::Value,
        H::Value,
        J::Value,
        K::Value,
    );

    ghost spells = { λ f. SpellsRow9 (A.spells f.0) (B.spells f.1) (C.spells f.2) (D.spells f.3)
        (F.spells f.4) (G.spells f.5) (H.spells f.6) (J.spells f.7) (K.spells f.8) };

    ghost same = { AreSame9 A.same B.same C.same D.same F.same G.same H.same J.same K.same };

    ghost lawful = { λ f. IsFormat-Row9 A.same B.same C.same D.same F.same G.same H.same J.same
        K.same (A.spells f.0) (B.spells f.1) (C.spells f.2) (D.spells f.3) (F.spells f.4)
        (G.spells f.5) (H.spells f.6) (J.spells f.7) (K.spells f.8) (A.lawful f.0) (B.lawful f.1)
        (C.lawful f.2) (D.lawful f.3) (F.lawful f.4) (G.lawful f.5) (H.lawful f.6) (J.lawful f.7)
        (K.lawful f.8) };

    #[inline(always)]
    fn read<I: StreamIsPartial<Token = u8>, E: ParserError<I>>(
        &self,
        alloc: Global,
        input: &mut I,
    ) -> ModalResult<
        (
            A::Value,
            B::Value,
            C::Value,
            D::Value,
            F::Value,
            G::Value,
            H::Value,
            J::Value,
            K::Value,
        ),
        E,
    > {
        match self.0.read(alloc, input) {
            Ok(first) => match (
                &self.1, &self.2, &self.3, &self.4, &self.5, &self.6, &self.7, &self.8,
            )
                .read(alloc, input)
            {
                Ok((second, third, fourth, fifth, sixth, seventh, eighth, ninth)) => Ok((
                    first, second, third, fourth, fifth, sixth, seventh, eighth, ninth,
                )),
                Err(failure) => Err(failure),
            },
            Err(failure) => Err(failure),
        }
    }

    #[inline(always)]
    fn write(
        &self,
        value: &(
            A::Value,
            B::Value,
            C::Value,
            D::Value,
            F::Value,
            G::Value,
            H::Value,
            J::Value,
            K::Value,
        ),
        bytes: &mut Vec<u8>,
    ) -> Result<(), Unwritten> {
        write_nine(
            self, &value.0, &value.1, &value.2, &value.3, &value.4, &value.5, &value.6, &value.7,
            &value.8, bytes,
        )
    }
}

/// Appends the bytes that spell ten values, one after the other. If it fails, the bytes are what
/// they were.
pub fn write_ten<
    A: Format,
    B: Format,
    C: Format,
    D: Format,
    F: Format,
    G: Format,
    H: Format,
    J: Format,
    K: Format,
    L: Format,
>(
    formats: &(A, B, C, D, F, G, H, J, K, L),
    first: &A::Value,
    second: &B::Value,
    third: &C::Value,
    fourth: &D::Value,
    fifth: &F::Value,
    sixth: &G::Value,
    seventh: &H::Value,
    eighth: &J::Value,
    ninth: &K::Value,
    tenth: &L::Value,
    bytes: &mut Vec<u8>,
) -> Result<(), Unwritten>
    ensures { Writes (SpellsRow10 (A.spells formats.now.0) (B.spells formats.now.1)
        (C.spells formats.now.2) (D.spells formats.now.3) (F.spells formats.now.4)
        (G.spells formats.now.5) (H.spells formats.now.6) (J.spells formats.now.7)
        (K.spells formats.now.8) (L.spells formats.now.9)) (
          first.now,
          second.now,
          third.now,
          fourth.now,
          fifth.now,
          sixth.now,
          seventh.now,
          eighth.now,
          ninth.now,
          tenth.now,
        ) bytes.old.items result bytes.new.items }
{
    let start = bytes.len();
    formats.0.write(first, bytes)?;
    match write_nine(
        &(
            &formats.1, &formats.2, &formats.3, &formats.4, &formats.5, &formats.6, &formats.7,
            &formats.8, &formats.9,
        ),
        second,
        third,
        fourth,
        fifth,
        sixth,
        seventh,
        eighth,
        ninth,
        tenth,
        bytes,
    ) {
        Ok(()) => Ok(()),
        Err(unwritten) => {
            bytes.truncate(start);
            Err(unwritten)
        }
    }
}

/// Ten formats, one after the other: their values.
impl<
    A: Format,
    B: Format,
    C: Format,
    D: Format,
    F: Format,
    G: Format,
    H: Format,
    J: Format,
    K: Format,
    L: Format,
> Format for (A, B, C, D, F, G, H, J, K, L)
where
    A::Value: Drop,
    B::Value: Drop,
    C::Value: Drop,
    D::Value: Drop,
    F::Value: Drop,
    G::Value: Drop,
    H::Value: Drop,
    J::Value: Drop,
    K::Value: Drop,
{
    type Value = (
        A::Value,
        B::Value,
        C::Value,
        D::Value,
        F::Value,
        G::Value,
        H::Value,
        J::Value,
        K::Value,
        L::Value,
    );

    ghost spells = { λ f. SpellsRow10 (A.spells f.0) (B.spells f.1) (C.spells f.2) (D.spells f.3)
        (F.spells f.4) (G.spells f.5) (H.spells f.6) (J.spells f.7) (K.spells f.8) (L.spells f.9) };

    ghost same = { AreSame10 A.same B.same C.same D.same F.same G.same H.same J.same K.same
        L.same };

    ghost lawful = { λ f. IsFormat-Row10 A.same B.same C.same D.same F.same G.same H.same J.same
        K.same L.same (A.spells f.0) (B.spells f.1) (C.spells f.2) (D.spells f.3) (F.spells f.4)
        (G.spells f.5) (H.spells f.6) (J.spells f.7) (K.spells f.8) (L.spells f.9) (A.lawful f.0)
        (B.lawful f.1) (C.lawful f.2) (D.lawful f.3) (F.lawful f.4) (G.lawful f.5) (H.lawful f.6)
        (J.lawful f.7) (K.lawful f.8) (L.lawful f.9) };

    #[inline(always)]
    fn read<I: StreamIsPartial<Token = u8>, E: ParserError<I>>(
        &self,
        alloc: Global,
        input: &mut I,
    ) -> ModalResult<
        (
            A::Value,
            B::Value,
            C::Value,
            D::Value,
            F::Value,
            G::Value,
            H::Value,
            J::Value,
            K::Value,
            L::Value,
        ),
        E,
    > {
        match self.0.read(alloc, input) {
            Ok(first) => match (
                &self.1, &self.2, &self.3, &self.4, &self.5, &self.6, &self.7, &self.8, &self.9,
            )
                .read(alloc, input)
            {
                Ok((second, third, fourth, fifth, sixth, seventh, eighth, ninth, tenth)) => Ok((
                    first, second, third, fourth, fifth, sixth, seventh, eighth, ninth, tenth,
                )),
                Err(failure) => Err(failure),
            },
            Err(failure) => Err(failure),
        }
    }

    #[inline(always)]
    fn write(
        &self,
        value: &(
            A::Value,
            B::Value,
            C::Value,
            D::Value,
            F::Value,
            G::Value,
            H::Value,
            J::Value,
            K::Value,
            L::Value,
        ),
        bytes: &mut Vec<u8>,
    ) -> Result<(), Unwritten> {
        write_ten(
            self, &value.0, &value.1, &value.2, &value.3, &value.4, &value.5, &value.6, &value.7,
            &value.8, &value.9, bytes,
        )
    }
}
