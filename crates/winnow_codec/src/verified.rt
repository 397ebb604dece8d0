//! Some of the values of a format: `Allowed`, `verify`, and `at_least`, counts from a least one on.

ghost use Rattle.std.specs.Prelude.{◌≡◌, ◌↔◌, ◌≤◌, IsTrue};
ghost use Rattle.winnow_codec.specs.Verified.{SpellsAllowed, IsFormat-Allowed};

use crate::{Exact, Format, Unwritten};
use std::alloc::Global;
use winnow_error::ParserError;
use winnow_parser::{Failure, ModalResult};
use winnow_stream::StreamIsPartial;

/// Which values are allowed, of those that a format has.
pub trait Allowed<V> {
    // The values that are allowed.
    ghost allows: { Self → V → Type 0 };

    /// Returns whether a value is allowed.
    fn is_allowed(&self, value: &V) -> bool
        ensures { IsTrue result ↔ allows self.now value.now };
}

/// The counts that are not below a limit; [`at_least`] has them.
#[derive(Clone, Copy, Drop)]
pub struct AtLeast<const LIMIT: usize>;

impl<const LIMIT: usize> Allowed<usize> for AtLeast<LIMIT> {
    ghost allows = { λ _ count. LIMIT ≤ count };

    fn is_allowed(&self, value: &usize) -> bool {
        LIMIT <= *value
    }
}

/// The format of the values that are allowed; [`verify`] makes it.
#[derive(Clone, Copy, Drop)]
pub struct Verified<F, A> {
    inner: F,
    allowed: A,
}

/// Returns the format of the values that are allowed, as `verify` of a parser does. Another value
/// is refused after its bytes, and is not written.
pub fn verify<F, A>(inner: F, allowed: A) -> Verified<F, A>
    ensures { result ≡ record { inner = inner; allowed = allowed } }
{
    Verified { inner, allowed }
}

/// Returns the format of a count of at least `LIMIT`. Where several widths can spell a count, the
/// wider ones begin where the narrower ones end, so that each count has one spelling:
///
/// ```
/// let wide = at_least::<256, _>(count_of(be_u16()));
/// ```
pub fn at_least<const LIMIT: usize, C>(count: C) -> Verified<C, AtLeast<LIMIT>>
    ensures { result.inner ≡ count }
{
    verify(count, AtLeast)
}

impl<F: Exact, A: Allowed<F::Value>> Format for Verified<F, A>
where
    F::Value: Drop,
{
    type Value = F::Value;

    ghost spells = { λ f. SpellsAllowed (A.allows f.allowed) (F.spells f.inner) };

    ghost same = { F.same };

    ghost lawful = { λ f. IsFormat-Allowed (A.allows f.allowed) F.same (F.spells f.inner)
        (F.lawful f.inner) };

    fn read<I: StreamIsPartial<Token = u8>, E: ParserError<I>>(
        &self,
        alloc: Global,
        input: &mut I,
    ) -> ModalResult<F::Value, E> {
        match self.inner.read(alloc, input) {
            Ok(value) => {
                if self.allowed.is_allowed(&value) {
                    Ok(value)
                } else {
                    Err(Failure::Backtrack(E::from_input(alloc, input)))
                }
            }
            Err(failure) => Err(failure),
        }
    }

    fn write(&self, value: &F::Value, bytes: &mut Vec<u8>) -> Result<(), Unwritten> {
        if self.allowed.is_allowed(value) {
            self.inner.write(value, bytes)
        } else {
            Err(Unwritten::Unspelled)
        }
    }
}

impl<F: Exact, A: Allowed<F::Value>> Exact for Verified<F, A>
where
    F::Value: Drop,
{
    ghost exact = { F.exact };

    fn equal(left: &F::Value, right: &F::Value) -> bool {
        F::equal(left, right)
    }
}
