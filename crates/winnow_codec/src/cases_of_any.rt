//! Cases of more tags than one, whose values keep the tag: `InRange`, `any_other`.

ghost use Rattle.std.specs.Prelude.{◌≡◌, ◌↔◌, IsTrue};
ghost use Rattle.winnow_codec.specs.Cases.{AreSameCase};
ghost use Rattle.winnow_codec.specs.CasesOfAny.{SpellsAnyOther, AreSameAfterTag, kept_tag};
ghost use Rattle.winnow_codec.specs.CasesOfAny.{AreCases-AnyOther, IsInRange, SpellsRange};
ghost use Rattle.winnow_codec.specs.CasesOfAny.{range_tag, AreCases-Range};

use crate::one_byte::OneByte;
use crate::{Cases, Choice, Exact, Format, Unwritten};
use std::alloc::Global;
use winnow_error::ParserError;
use winnow_parser::ModalResult;
use winnow_stream::StreamIsPartial;

/// The last of the cases, after any tag that no case before it has; [`any_other`] makes it.
#[derive(Clone, Copy, Drop)]
pub struct AnyOther<A> {
    pub(crate) format: A,
}

/// Returns the last of the cases, after any tag that no case before it has: the value of this
/// format, beside its tag. A value with the tag of a case before it is not written.
///
/// ```
/// let other = any_other(bytes_after(count_of(u8())));
/// let option = by_tag(byte(), At::<0, _, _>((), At::<255, _, _>((), other)));
/// ```
pub fn any_other<A>(format: A) -> AnyOther<A>
    ensures { result ≡ record { format = format } }
{
    AnyOther { format }
}

impl<T: Exact, A: Format> Cases<T> for AnyOther<A>
where
    T::Value: Copy,
{
    type Value = (T::Value, A::Value);

    ghost spells = { λ c. SpellsAnyOther (A.spells c.format) };

    ghost same = { AreSameAfterTag A.same };

    ghost tag_of = { λ _. kept_tag };

    ghost lawful = { λ c. AreCases-AnyOther A.same (A.spells c.format) (A.lawful c.format) };

    fn tag(&self, value: &(T::Value, A::Value)) -> T::Value {
        value.0
    }

    fn read_after<I: StreamIsPartial<Token = u8>, E: ParserError<I>>(
        &self,
        label: T::Value,
        alloc: Global,
        input: &mut I,
    ) -> ModalResult<(T::Value, A::Value), E> {
        match self.format.read(alloc, input) {
            Ok(value) => Ok((label, value)),
            Err(failure) => Err(failure),
        }
    }

    fn write_after(
        &self,
        value: &(T::Value, A::Value),
        bytes: &mut Vec<u8>,
    ) -> Result<(), Unwritten> {
        self.format.write(&value.1, bytes)
    }
}

/// A case of the bytes from `LOWEST` to `HIGHEST`, and the others: after such a byte, a value of
/// the format, beside the byte. A value with a byte outside the range is not written.
#[derive(Clone, Copy, Drop)]
pub struct InRange<const LOWEST: u8, const HIGHEST: u8, A, R>(pub A, pub R);

// Returns whether a tag is in a range.
pub(crate) fn is_in_range(lowest: u8, highest: u8, label: u8) -> bool
    ensures { IsTrue result ↔ IsInRange lowest highest label }
{
    lowest <= label && label <= highest
}

impl<const LOWEST: u8, const HIGHEST: u8, A: Format, R: Cases<OneByte>> Cases<OneByte>
    for InRange<LOWEST, HIGHEST, A, R> {
    type Value = Choice<(u8, A::Value), R::Value>;

    ghost spells = { λ c. SpellsRange LOWEST HIGHEST (A.spells c.0) (R.spells c.1) };

    ghost same = { AreSameCase (AreSameAfterTag A.same) R.same };

    ghost tag_of = { λ c. range_tag (R.tag_of c.1) };

    ghost lawful = { λ c. AreCases-Range LOWEST HIGHEST A.same (A.spells c.0) (A.lawful c.0) R.same
        (R.tag_of c.1) (R.spells c.1) (R.lawful c.1) };

    fn tag(&self, value: &Choice<(u8, A::Value), R::Value>) -> u8 {
        match value {
            Choice::First(first) => first.0,
            Choice::Other(other) => self.1.tag(other),
        }
    }

    fn read_after<I: StreamIsPartial<Token = u8>, E: ParserError<I>>(
        &self,
        label: u8,
        alloc: Global,
        input: &mut I,
    ) -> ModalResult<Choice<(u8, A::Value), R::Value>, E> {
        if is_in_range(LOWEST, HIGHEST, label) {
            match self.0.read(alloc, input) {
                Ok(value) => Ok(Choice::First((label, value))),
                Err(failure) => Err(failure),
            }
        } else {
            match self.1.read_after(label, alloc, input) {
                Ok(value) => Ok(Choice::Other(value)),
                Err(failure) => Err(failure),
            }
        }
    }

    fn write_after(
        &self,
        value: &Choice<(u8, A::Value), R::Value>,
        bytes: &mut Vec<u8>,
    ) -> Result<(), Unwritten> {
        match value {
            Choice::First(first) => {
                if is_in_range(LOWEST, HIGHEST, first.0) {
                    self.0.write(&first.1, bytes)
                } else {
                    Err(Unwritten::Unspelled)
                }
            }
            Choice::Other(other) => {
                if is_in_range(LOWEST, HIGHEST, self.1.tag(other)) {
                    return Err(Unwritten::Unspelled);
                }
                self.1.write_after(other, bytes)
            }
        }
    }
}
