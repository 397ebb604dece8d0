//! Cases of a tag of one byte that stands in their type: `At`, `LastAt`.

ghost use Rattle.winnow_codec.specs.Cases.{SpellsLast, only_tag, AreCases-Last};
ghost use Rattle.winnow_codec.specs.Cases.{SpellsCase, AreSameCase, case_tag, AreCases-Case};

use crate::one_byte::OneByte;
use crate::{Cases, Choice, Format, Unwritten};
use std::alloc::Global;
use winnow_error::ParserError;
use winnow_parser::{Failure, ModalResult};
use winnow_stream::StreamIsPartial;

/// The last of the cases of a byte: after this byte, a value of the format.
#[derive(Clone, Copy, Drop)]
pub struct LastAt<const BYTE: u8, A>(pub A);

impl<const BYTE: u8, A: Format> Cases<OneByte> for LastAt<BYTE, A> {
    type Value = A::Value;

    ghost spells = { λ c. SpellsLast BYTE (A.spells c.0) };

    ghost same = { A.same };

    ghost tag_of = { λ c. only_tag BYTE };

    ghost lawful = { λ c. AreCases-Last BYTE A.same (A.spells c.0) (A.lawful c.0) };

    fn tag(&self, _value: &A::Value) -> u8 {
        BYTE
    }

    fn read_after<I: StreamIsPartial<Token = u8>, E: ParserError<I>>(
        &self,
        label: u8,
        alloc: Global,
        input: &mut I,
    ) -> ModalResult<A::Value, E> {
        if label != BYTE {
            return Err(Failure::Backtrack(E::from_input(alloc, input)));
        }
        match self.0.read(alloc, input) {
            Ok(value) => Ok(value),
            Err(failure) => Err(failure),
        }
    }

    fn write_after(&self, value: &A::Value, bytes: &mut Vec<u8>) -> Result<(), Unwritten> {
        self.0.write(value, bytes)
    }
}

/// A case of a byte and the others: after this byte, a value of the format.
#[derive(Clone, Copy, Drop)]
pub struct At<const BYTE: u8, A, R>(pub A, pub R);

impl<const BYTE: u8, A: Format, R: Cases<OneByte>> Cases<OneByte> for At<BYTE, A, R> {
    type Value = Choice<A::Value, R::Value>;

    ghost spells = { λ c. SpellsCase BYTE (A.spells c.0) (R.spells c.1) };

    ghost same = { AreSameCase A.same R.same };

    ghost tag_of = { λ c. case_tag BYTE (R.tag_of c.1) };

    ghost lawful = { λ c. AreCases-Case BYTE A.same (A.spells c.0) (A.lawful c.0) R.same
        (R.tag_of c.1) (R.spells c.1) (R.lawful c.1) };

    fn tag(&self, value: &Choice<A::Value, R::Value>) -> u8 {
        match value {
            Choice::First(_) => BYTE,
            Choice::Other(other) => self.1.tag(other),
        }
    }

    fn read_after<I: StreamIsPartial<Token = u8>, E: ParserError<I>>(
        &self,
        label: u8,
        alloc: Global,
        input: &mut I,
    ) -> ModalResult<Choice<A::Value, R::Value>, E> {
        if label == BYTE {
            match self.0.read(alloc, input) {
                Ok(value) => Ok(Choice::First(value)),
                Err(failure) => Err(failure),
            }
        } else {
            match self.1.read_after(label, alloc, input) {
                Ok(value) => Ok(Choice::Other(value)),
                Err(failure) => Err(failure),
            }
        }
    }

    fn write_after(
        &self,
        value: &Choice<A::Value, R::Value>,
        bytes: &mut Vec<u8>,
    ) -> Result<(), Unwritten> {
        match value {
            Choice::First(first) => self.0.write(first, bytes),
            Choice::Other(other) => {
                if self.1.tag(other) == BYTE {
                    return Err(Unwritten::Unspelled);
                }
                self.1.write_after(other, bytes)
            }
        }
    }
}
