//! Values that stand for those of a format: `Mapping`, `mapped`.

ghost use Rattle.std.specs.Prelude.{◌≡◌, MatchOption, Option, Some};
ghost use Rattle.winnow_codec.specs.Formats.{IsEqual};
ghost use Rattle.winnow_codec_mapped.specs.Mapped.{SpellsMapped, StandsForOne, IsFormat-Mapped};

use std::alloc::Global;
use winnow_codec::{Exact, Format, Unwritten};
use winnow_error::ParserError;
use winnow_parser::{Failure, ModalResult};
use winnow_stream::StreamIsPartial;

/// Values that stand for others, one for one, as a float does for its bits. Some of the others may
/// have no value that stands for them.
pub trait Mapping<A> {
    /// The type of the values.
    type Value;

    // The value that stands for this one, if there is one.
    ghost value_of: { Self → A → Option Self.Value };

    /// Returns the value that stands for this one, or `None` if none does.
    fn from_inner(&self, inner: A) -> Option<Self::Value>
        ensures { result ≡ value_of self.now inner };

    /// Returns what the value stands for, or `None` if it stands for nothing.
    fn to_inner(&self, value: &Self::Value) -> Option<A>
        ensures { MatchOption result
            ((inner : A) → value_of self.now inner ≡ Some value.now → ⊥)
            (λ inner. value_of self.now inner ≡ Some value.now) };

    // No value stands for two.
    ghost one_to_one: { (m : Self) → StandsForOne (value_of m) };
}

/// The format of values that stand for those of another one; [`mapped`] makes it.
#[derive(Clone, Copy, Drop)]
pub struct MappedBy<F, M> {
    inner: F,
    mapping: M,
}

/// Returns the format of the values that stand for those of `inner`, as `verify_map` of a parser
/// does, and back again. A value of `inner` for which none stands is refused after its bytes; a
/// value that stands for nothing is not written.
pub fn mapped<F, M>(inner: F, mapping: M) -> MappedBy<F, M>
    ensures { result ≡ record { inner = inner; mapping = mapping } }
{
    MappedBy { inner, mapping }
}

impl<F: Exact, M: Mapping<F::Value>> Format for MappedBy<F, M>
where
    F::Value: Drop,
{
    type Value = M::Value;

    ghost spells = { λ f. SpellsMapped (M.value_of f.mapping) (F.spells f.inner) };

    ghost same = { IsEqual };

    ghost lawful = { λ f. IsFormat-Mapped (M.value_of f.mapping) F.same (F.spells f.inner)
        (M.one_to_one f.mapping) F.exact (F.lawful f.inner) };

    fn read<I: StreamIsPartial<Token = u8>, E: ParserError<I>>(
        &self,
        alloc: Global,
        input: &mut I,
    ) -> ModalResult<M::Value, E> {
        match self.inner.read(alloc, input) {
            Ok(inner) => match self.mapping.from_inner(inner) {
                Some(value) => Ok(value),
                None => Err(Failure::Backtrack(E::from_input(alloc, input))),
            },
            Err(failure) => Err(failure),
        }
    }

    fn write(&self, value: &M::Value, bytes: &mut Vec<u8>) -> Result<(), Unwritten> {
        match self.mapping.to_inner(value) {
            Some(inner) => self.inner.write(&inner, bytes),
            None => Err(Unwritten::Unspelled),
        }
    }
}
