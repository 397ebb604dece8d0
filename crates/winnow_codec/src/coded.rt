//! Values by a code: `Coded`, `by_code_of`.

ghost use Rattle.std.specs.Prelude.{◌≡◌, MatchOption};
ghost use Rattle.winnow_codec.specs.Exactness.{TellsByParts, IsExact-Parts};
ghost use Rattle.winnow_codec.specs.FormatParts.{SpellsParts, HaveSameParts, IsFormat-Parts};

use crate::{Exact, Format, Unwritten};
use std::alloc::Global;
use std::marker::PhantomData;
use winnow_error::ParserError;
use winnow_parser::{Failure, ModalResult};
use winnow_stream::StreamIsPartial;

/// A type of which a code stands for each value, as an enum for which a byte does.
pub trait Coded<C>: Sized {
    // The code of a value.
    ghost code: { Self → C };

    /// Returns the value for which the code stands.
    fn from_code(number: C) -> Option<Self>
        ensures { MatchOption result ((value : Self) → code value ≡ number → ⊥)
            (λ value. code value ≡ number) };

    /// Returns the code of the value.
    fn to_code(&self) -> C
        ensures { result ≡ code self.now };
}

/// A type of which each value has a code of its own. Then the values of its format are compared
/// ([`Exact`]).
pub trait ExactCoded<C>: Coded<C> {
    // Values of the same code are equal.
    ghost tells: { TellsByParts Self.code };
}

/// The format of a value that is spelled as its code is; [`by_code_of`] makes it.
#[derive_where(Clone, Copy; F)]
pub struct ByCode<T, F> {
    codes: F,
    value: PhantomData<T>,
}

/// Returns the format of a value by that of its code.
pub fn by_code_of<T, F>(codes: F) -> ByCode<T, F>
    ensures { result.codes ≡ codes }
{
    ByCode {
        codes,
        value: PhantomData,
    }
}

impl<F: Exact, T: Coded<F::Value>> Format for ByCode<T, F>
where
    F::Value: Drop + Copy,
{
    type Value = T;

    ghost spells = { λ f. SpellsParts T.code (F.spells f.codes) };

    ghost same = { HaveSameParts T.code F.same };

    ghost lawful = { λ f. IsFormat-Parts T.code F.same (F.spells f.codes) (F.lawful f.codes) };

    fn read<I: StreamIsPartial<Token = u8>, E: ParserError<I>>(
        &self,
        alloc: Global,
        input: &mut I,
    ) -> ModalResult<T, E> {
        match self.codes.read(alloc, input) {
            Ok(code) => match T::from_code(code) {
                Some(value) => Ok(value),
                None => Err(Failure::Backtrack(E::from_input(alloc, input))),
            },
            Err(failure) => Err(failure),
        }
    }

    fn write(&self, value: &T, bytes: &mut Vec<u8>) -> Result<(), Unwritten> {
        self.codes.write(&value.to_code(), bytes)
    }
}

impl<F: Exact, T: ExactCoded<F::Value>> Exact for ByCode<T, F>
where
    F::Value: Drop + Copy,
{
    ghost exact = { IsExact-Parts T.code F.same T.tells F.exact };

    fn equal(left: &T, right: &T) -> bool {
        F::equal(&left.to_code(), &right.to_code())
    }
}
