//! The ghost members for the printed text of a `Range` of counts, and its conversion by the bound.

ghost use Rattle.std.specs.Prelude.{◌≡◌, Some};
ghost use Rattle.winnow_count.specs.CountRange.{range_text};
ghost use Rattle.winnow_count.specs.declared.range.Range.{Range};

use std::fmt::{Debug, Display};
use winnow_count::Range;

/// The members for the printed text of a range, spelled out. No format option changes it.
pub fn text_members()
    ensures shown { (range : Range)
        → ⟦<Range as Display>⟧.output range ≡ Some (range_text range) }
    ensures styled { (range : Range) (spec : _)
        → ⟦<Range as Display>⟧.styled_output range spec ≡ Some (range_text range) }
    ensures debugged { (range : Range)
        → ⟦<Range as Debug>⟧.debug_output range ≡ Some (range_text range) }
{}

/// Makes a range through the bound.
pub fn range_of<C: Into<Range>>(counts: C) -> Range
    ensures { C.converts counts result }
{
    counts.into()
}
