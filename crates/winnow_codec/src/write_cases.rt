//! Writers of one case of a tag by a reference to its value: `write_first` and those beside it.

ghost use Rattle.std.specs.Prelude.{◌≡◌};
ghost use Rattle.winnow_codec.specs.Byte.{SpellsByte};
ghost use Rattle.winnow_codec.specs.Cases.{SpellsTagged, SpellsCase};
ghost use Rattle.winnow_codec.specs.Cases.{SpellsLast, case_tag, only_tag};
ghost use Rattle.winnow_codec.specs.declared.choice.Choice.{Choice};
ghost use Rattle.winnow_codec.specs.declared.choice.Choice.TheVariants.{First, Other};
ghost use Rattle.winnow_codec.specs.Writing.{Writes};

use crate::one_byte::OneByte;
use crate::{At, Cases, Format, LastAt, Tagged, Unwritten};

// Appends a tag and the bytes that spell a value.
pub(crate) fn write_case<A: Format>(
    label: u8,
    format: &A,
    value: &A::Value,
    bytes: &mut Vec<u8>,
) -> Result<(), Unwritten>
    ensures { Writes (SpellsTagged SpellsByte (only_tag label)
        (SpellsLast label (A.spells format.now)))
        value.now bytes.old.items result bytes.new.items }
{
    let start = bytes.len();
    OneByte.write(&label, bytes)?;
    match format.write(value, bytes) {
        Ok(()) => Ok(()),
        Err(unwritten) => {
            bytes.truncate(start);
            Err(unwritten)
        }
    }
}

/// Appends the bytes of the first case of a tag.
pub fn write_first<const T1: u8, A: Format, R: Cases<OneByte>>(
    format: &Tagged<OneByte, At<T1, A, R>>,
    value: &A::Value,
    bytes: &mut Vec<u8>,
) -> Result<(), Unwritten>
    ensures { (v : Choice A.Value R.Value) → v ≡ First value.now
        → Writes (SpellsTagged SpellsByte
        (case_tag T1 (R.tag_of format.now.cases.1))
        (SpellsCase T1 (A.spells format.now.cases.0)
        (R.spells format.now.cases.1)))
        v bytes.old.items result bytes.new.items }
{
    write_case(T1, &format.cases.0, value, bytes)
}

/// Appends the bytes of the second case of a tag. A tag that an earlier case has is not written.
pub fn write_second<const T1: u8, const T2: u8, A: Format, B: Format, R: Cases<OneByte>>(
    format: &Tagged<OneByte, At<T1, A, At<T2, B, R>>>,
    value: &B::Value,
    bytes: &mut Vec<u8>,
) -> Result<(), Unwritten>
    ensures { (v : Choice A.Value (Choice B.Value R.Value)) → v ≡ Other (First value.now)
        → Writes (SpellsTagged SpellsByte
        (case_tag T1 (case_tag T2 (R.tag_of format.now.cases.1.1)))
        (SpellsCase T1 (A.spells format.now.cases.0)
        (SpellsCase T2 (B.spells format.now.cases.1.0)
        (R.spells format.now.cases.1.1))))
        v bytes.old.items result bytes.new.items }
{
    if T2 == T1 {
        return Err(Unwritten::Unspelled);
    }
    write_case(T2, &format.cases.1.0, value, bytes)
}

/// Appends the bytes of the third case of a tag. A tag that an earlier case has is not written.
pub fn write_third<
    const T1: u8,
    const T2: u8,
    const T3: u8,
    A: Format,
    B: Format,
    C: Format,
    R: Cases<OneByte>,
>(
    format: &Tagged<OneByte, At<T1, A, At<T2, B, At<T3, C, R>>>>,
    value: &C::Value,
    bytes: &mut Vec<u8>,
) -> Result<(), Unwritten>
    ensures { (v : Choice A.Value (Choice B.Value (Choice C.Value R.Value)))
        → v ≡ Other (Other (First value.now))
        → Writes (SpellsTagged SpellsByte
        (case_tag T1 (case_tag T2 (case_tag T3 (R.tag_of format.now.cases.1.1.1))))
        (SpellsCase T1 (A.spells format.now.cases.0)
        (SpellsCase T2 (B.spells format.now.cases.1.0)
        (SpellsCase T3 (C.spells format.now.cases.1.1.0)
        (R.spells format.now.cases.1.1.1)))))
        v bytes.old.items result bytes.new.items }
{
    if T3 == T1 || T3 == T2 {
        return Err(Unwritten::Unspelled);
    }
    write_case(T3, &format.cases.1.1.0, value, bytes)
}

/// Appends the bytes of the last of two cases of a tag. A tag that an earlier case has is not
/// written.
pub fn write_last_of_two<const T1: u8, const T2: u8, A: Format, B: Format>(
    format: &Tagged<OneByte, At<T1, A, LastAt<T2, B>>>,
    value: &B::Value,
    bytes: &mut Vec<u8>,
) -> Result<(), Unwritten>
    ensures { (v : Choice A.Value B.Value) → v ≡ Other value.now
        → Writes (SpellsTagged SpellsByte
        (case_tag T1 (only_tag T2))
        (SpellsCase T1 (A.spells format.now.cases.0)
        (SpellsLast T2 (B.spells format.now.cases.1.0))))
        v bytes.old.items result bytes.new.items }
{
    if T2 == T1 {
        return Err(Unwritten::Unspelled);
    }
    write_case(T2, &format.cases.1.0, value, bytes)
}

/// Appends the bytes of the last of three cases of a tag. A tag that an earlier case has is not
/// written.
pub fn write_last_of_three<
    const T1: u8,
    const T2: u8,
    const T3: u8,
    A: Format,
    B: Format,
    C: Format,
>(
    format: &Tagged<OneByte, At<T1, A, At<T2, B, LastAt<T3, C>>>>,
    value: &C::Value,
    bytes: &mut Vec<u8>,
) -> Result<(), Unwritten>
    ensures { (v : Choice A.Value (Choice B.Value C.Value)) → v ≡ Other (Other value.now)
        → Writes (SpellsTagged SpellsByte
        (case_tag T1 (case_tag T2 (only_tag T3)))
        (SpellsCase T1 (A.spells format.now.cases.0)
        (SpellsCase T2 (B.spells format.now.cases.1.0)
        (SpellsLast T3 (C.spells format.now.cases.1.1.0)))))
        v bytes.old.items result bytes.new.items }
{
    if T3 == T1 || T3 == T2 {
        return Err(Unwritten::Unspelled);
    }
    write_case(T3, &format.cases.1.1.0, value, bytes)
}

/// Appends the bytes of the last of four cases of a tag. A tag that an earlier case has is not
/// written.
pub fn write_last_of_four<
    const T1: u8,
    const T2: u8,
    const T3: u8,
    const T4: u8,
    A: Format,
    B: Format,
    C: Format,
    D: Format,
>(
    format: &Tagged<OneByte, At<T1, A, At<T2, B, At<T3, C, LastAt<T4, D>>>>>,
    value: &D::Value,
    bytes: &mut Vec<u8>,
) -> Result<(), Unwritten>
    ensures { (v : Choice A.Value (Choice B.Value (Choice C.Value D.Value)))
        → v ≡ Other (Other (Other value.now))
        → Writes (SpellsTagged SpellsByte
        (case_tag T1 (case_tag T2 (case_tag T3 (only_tag T4))))
        (SpellsCase T1 (A.spells format.now.cases.0)
        (SpellsCase T2 (B.spells format.now.cases.1.0)
        (SpellsCase T3 (C.spells format.now.cases.1.1.0)
        (SpellsLast T4 (D.spells format.now.cases.1.1.1.0))))))
        v bytes.old.items result bytes.new.items }
{
    if T4 == T1 || T4 == T2 || T4 == T3 {
        return Err(Unwritten::Unspelled);
    }
    write_case(T4, &format.cases.1.1.1.0, value, bytes)
}
