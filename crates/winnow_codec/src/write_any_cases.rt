//! Writers of one case of more tags than one, by a reference to its value: `write_in_range` and
//! those beside it.

ghost use Rattle.std.specs.Prelude.{◌≡◌, ℕ};
ghost use Rattle.winnow_codec.specs.Byte.{SpellsByte};
ghost use Rattle.winnow_codec.specs.Cases.{SpellsTagged, SpellsCase, case_tag};
ghost use Rattle.winnow_codec.specs.CasesOfAny.{SpellsAnyOther, SpellsRange, kept_tag, range_tag};
ghost use Rattle.winnow_codec.specs.declared.choice.Choice.{Choice};
ghost use Rattle.winnow_codec.specs.declared.choice.Choice.TheVariants.{First, Other};
ghost use Rattle.winnow_codec.specs.Writing.{Writes};

use crate::cases_of_any::is_in_range;
use crate::one_byte::OneByte;
use crate::write_cases::write_case;
use crate::{AnyOther, At, Cases, Format, InRange, Tagged, Unwritten};

/// Appends the bytes of the first case of a tag, which has a range of tags, with this tag. A tag
/// outside the range is not written.
pub fn write_in_range<const LOWEST: u8, const HIGHEST: u8, A: Format, R: Cases<OneByte>>(
    format: &Tagged<OneByte, InRange<LOWEST, HIGHEST, A, R>>,
    label: u8,
    value: &A::Value,
    bytes: &mut Vec<u8>,
) -> Result<(), Unwritten>
    ensures { (v : Choice (ℕ × A.Value) R.Value) → v ≡ First (label, value.now)
        → Writes (SpellsTagged SpellsByte
        (range_tag (R.tag_of format.now.cases.1))
        (SpellsRange LOWEST HIGHEST (A.spells format.now.cases.0)
        (R.spells format.now.cases.1)))
        v bytes.old.items result bytes.new.items }
{
    if !is_in_range(LOWEST, HIGHEST, label) {
        return Err(Unwritten::Unspelled);
    }
    write_case(label, &format.cases.0, value, bytes)
}

/// Appends the bytes of the last of two cases of a tag, which has any other tag, with this tag. The
/// tag of the first case is not written.
pub fn write_other_of_two<const T1: u8, A: Format, B: Format>(
    format: &Tagged<OneByte, At<T1, A, AnyOther<B>>>,
    label: u8,
    value: &B::Value,
    bytes: &mut Vec<u8>,
) -> Result<(), Unwritten>
    ensures { (v : Choice A.Value (ℕ × B.Value)) → v ≡ Other (label, value.now)
        → Writes (SpellsTagged SpellsByte
        (case_tag T1 kept_tag)
        (SpellsCase T1 (A.spells format.now.cases.0)
        (SpellsAnyOther (B.spells format.now.cases.1.format))))
        v bytes.old.items result bytes.new.items }
{
    if label == T1 {
        return Err(Unwritten::Unspelled);
    }
    write_case(label, &format.cases.1.format, value, bytes)
}

/// Appends the bytes of the last of three cases of a tag, which has any other tag, with this tag.
/// The tags of the cases before it are not written.
pub fn write_other_of_three<const T1: u8, const T2: u8, A: Format, B: Format, C: Format>(
    format: &Tagged<OneByte, At<T1, A, At<T2, B, AnyOther<C>>>>,
    label: u8,
    value: &C::Value,
    bytes: &mut Vec<u8>,
) -> Result<(), Unwritten>
    ensures { (v : Choice A.Value (Choice B.Value (ℕ × C.Value)))
        → v ≡ Other (Other (label, value.now))
        → Writes (SpellsTagged SpellsByte
        (case_tag T1 (case_tag T2 kept_tag))
        (SpellsCase T1 (A.spells format.now.cases.0)
        (SpellsCase T2 (B.spells format.now.cases.1.0)
        (SpellsAnyOther (C.spells format.now.cases.1.1.format)))))
        v bytes.old.items result bytes.new.items }
{
    if label == T1 || label == T2 {
        return Err(Unwritten::Unspelled);
    }
    write_case(label, &format.cases.1.1.format, value, bytes)
}
