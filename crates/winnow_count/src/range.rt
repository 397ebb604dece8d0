//! `Range`, the number of times that a parser may be repeated.

ghost use Rattle.std.specs.Prelude.{◌≡◌, ◌-◌, Some, None, ⊤, MatchOption, IfOk};
ghost use Rattle.std.specs.declared.ops.Bound.TheVariants.{Included, Unbounded};
ghost use Rattle.std.specs.Range.{range_inclusive_start, range_inclusive_end};
ghost use Rattle.std.specs.Option.{option_map_or};
ghost use Rattle.std.specs.Fmt.InlineText.{inline_text};
ghost use Rattle.winnow_count.specs.CountRange.{HasCounts, least_count, greatest_count, range_text};

use std::fmt::{InlineText, Write};
use std::ops::{Bound, RangeBounds};
use std::{fmt, ops};

/// The number of times that a parser may be repeated: from a least count to a greatest, if there is
/// one. Both are allowed.
///
/// It is made from a number, which is then the only count, or from any range of numbers. The
/// greatest count of a half-open range is one below its end, but never below 0: so `5..5` allows no
/// count, but `0..0` and `..0` allow the count 0.
#[derive(Clone, Copy, PartialEq, Eq)]
pub struct Range {
    least: usize,
    greatest: Option<usize>,
}

impl Range {
    /// Returns the least count.
    pub fn least(&self) -> usize
        ensures { result ≡ least_count self.now }
    {
        self.least
    }

    /// Returns the greatest count, if there is one.
    pub fn greatest(&self) -> Option<usize>
        ensures { result ≡ greatest_count self.now }
    {
        self.greatest
    }

    // The text that the range prints. It is made without the formatter, whose options must not
    // reach the counts. Each of two counts has at most 20 digits, so both fit with the `..=`
    // between them.
    fn text(&self) -> Result<InlineText<43>, fmt::Error>
        ensures { IfOk result (λ text. inline_text text ≡ range_text self.now) }
    {
        let mut text: InlineText<43> = InlineText::new();
        let least = self.least;
        match self.greatest {
            None => write!(text, "{least}..")?,
            Some(greatest) if greatest == least => write!(text, "{least}")?,
            Some(greatest) => write!(text, "{least}..={greatest}")?,
        }
        Ok(text)
    }
}

/// Exactly this count.
impl From<usize> for Range {
    ghost from_gives = { λ n range. HasCounts n (Some n) range };

    fn from(count: usize) -> Self {
        Range {
            least: count,
            greatest: Some(count),
        }
    }
}

/// The counts from the start up to the end, without the end.
impl From<ops::Range<usize>> for Range {
    ghost from_gives = { λ counts range. HasCounts counts.start (Some (counts.end - 1)) range };

    fn from(counts: ops::Range<usize>) -> Self {
        Range {
            least: counts.start,
            greatest: Some(counts.end.saturating_sub(1)),
        }
    }
}

/// The counts from the start up to the end, with the end.
impl From<ops::RangeInclusive<usize>> for Range {
    ghost from_gives = { λ counts range.
        HasCounts (range_inclusive_start counts) (Some (range_inclusive_end counts)) range };

    fn from(counts: ops::RangeInclusive<usize>) -> Self {
        Range {
            least: *counts.start(),
            greatest: Some(*counts.end()),
        }
    }
}

/// The counts from the start on.
impl From<ops::RangeFrom<usize>> for Range {
    ghost from_gives = { λ counts range. HasCounts counts.start None range };

    fn from(counts: ops::RangeFrom<usize>) -> Self {
        Range {
            least: counts.start,
            greatest: None,
        }
    }
}

/// The counts up to the end, without the end.
impl From<ops::RangeTo<usize>> for Range {
    ghost from_gives = { λ counts range. HasCounts 0 (Some (counts.end - 1)) range };

    fn from(counts: ops::RangeTo<usize>) -> Self {
        Range::from(0..counts.end)
    }
}

/// The counts up to the end, with the end.
impl From<ops::RangeToInclusive<usize>> for Range {
    ghost from_gives = { λ counts range. HasCounts 0 (Some counts.end) range };

    fn from(counts: ops::RangeToInclusive<usize>) -> Self {
        Range::from(0..=counts.end)
    }
}

/// Every count.
impl From<ops::RangeFull> for Range {
    ghost from_gives = { λ _ range. HasCounts 0 None range };

    fn from(_counts: ops::RangeFull) -> Self {
        Range::from(0..)
    }
}

impl RangeBounds<usize> for Range {
    ghost has_bounds = { λ _. ⊤ };

    ghost start_bound = { λ range. Included (least_count range) };

    ghost end_bound = { λ range. option_map_or Included (greatest_count range) Unbounded };

    ghost is_forward = { λ range P _.
        MatchOption (greatest_count range) ⊤ (P (least_count range)) };

    fn start_bound(&self) -> Bound<&usize> {
        Bound::Included(&self.least)
    }

    fn end_bound(&self) -> Bound<&usize> {
        match &self.greatest {
            Some(greatest) => Bound::Included(greatest),
            None => Bound::Unbounded,
        }
    }
}

/// Prints the least count. Then it prints nothing if the greatest count is the same, `..=` and the
/// greatest if it is another, or `..` if there is none. No format option changes the text.
impl fmt::Display for Range {
    ghost output = { λ range. Some (range_text range) };

    ghost styled_output = { λ range _. Some (range_text range) };

    fn fmt<W: fmt::Write>(&self, f: &mut fmt::Formatter<W>) -> fmt::Result {
        let text = self.text()?;
        f.write_str(text.as_str())
    }
}

/// Prints what `Display` does.
impl fmt::Debug for Range {
    ghost debug_output = { λ range. Some (range_text range) };

    fn fmt<W: fmt::Write>(&self, f: &mut fmt::Formatter<W>) -> fmt::Result {
        write!(f, "{self}")
    }
}
