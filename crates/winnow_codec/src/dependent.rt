//! A format that the value before it chooses: `Choose`, `choose_next`.

ghost use Rattle.std.specs.Prelude.{◌≡◌};
ghost use Rattle.winnow_codec.specs.Exactness.{IsExact-Both};
ghost use Rattle.winnow_codec.specs.FormatRows.{SpellsBoth, AreBothSame, IsFormat-Then};

use crate::{Exact, Format, Unwritten};
use std::alloc::Global;
use winnow_error::ParserError;
use winnow_parser::ModalResult;
use winnow_stream::StreamIsPartial;

/// What a value says of how the next one is spelled.
pub trait Choose<V>: Sized {
    /// The format of what comes next.
    type Format: Format;

    // The format of what comes after a value.
    ghost chosen: { Self → V → Self.Format };

    /// Returns the format of what comes after the value.
    fn choose(&self, value: &V) -> Self::Format
        ensures { result ≡ chosen self.now value.now };
}

/// The format of a value, and of one whose format the first chooses; [`choose_next`] makes it.
#[derive(Clone, Copy, Drop)]
pub struct Then<A, C> {
    first: A,
    second: C,
}

/// Returns the format of a value, and of one whose format the first chooses.
pub fn choose_next<A, C>(first: A, second: C) -> Then<A, C>
    ensures { result ≡ record { first = first; second = second } }
{
    Then { first, second }
}

impl<A: Exact, C: Choose<A::Value>> Format for Then<A, C>
where
    A::Value: Drop,
    C::Format: Drop,
{
    type Value = (A::Value, <C::Format as Format>::Value);

    ghost spells = { λ f. SpellsBoth (A.spells f.first) (λ v. C.Format.spells
        (C.chosen f.second v)) };

    ghost same = { AreBothSame A.same C.Format.same };

    ghost lawful = { λ f. IsFormat-Then A.same A.exact (A.spells f.first) (A.lawful f.first)
        C.Format.same C.Format.spells C.Format.lawful (C.chosen f.second) };

    fn read<I: StreamIsPartial<Token = u8>, E: ParserError<I>>(
        &self,
        alloc: Global,
        input: &mut I,
    ) -> ModalResult<(A::Value, <C::Format as Format>::Value), E> {
        match self.first.read(alloc, input) {
            Ok(first) => {
                let next = self.second.choose(&first);
                match next.read(alloc, input) {
                    Ok(second) => Ok((first, second)),
                    Err(failure) => Err(failure),
                }
            }
            Err(failure) => Err(failure),
        }
    }

    fn write(
        &self,
        value: &(A::Value, <C::Format as Format>::Value),
        bytes: &mut Vec<u8>,
    ) -> Result<(), Unwritten> {
        let start = bytes.len();
        self.first.write(&value.0, bytes)?;
        let next = self.second.choose(&value.0);
        match next.write(&value.1, bytes) {
            Ok(()) => Ok(()),
            Err(unwritten) => {
                bytes.truncate(start);
                Err(unwritten)
            }
        }
    }
}

impl<A: Exact, C: Choose<A::Value>> Exact for Then<A, C>
where
    A::Value: Drop,
    C::Format: Drop + Exact,
{
    ghost exact = { IsExact-Both A.same C.Format.same A.exact C.Format.exact };

    fn equal(
        left: &(A::Value, <C::Format as Format>::Value),
        right: &(A::Value, <C::Format as Format>::Value),
    ) -> bool {
        A::equal(&left.0, &right.0) && <C::Format as Exact>::equal(&left.1, &right.1)
    }
}
