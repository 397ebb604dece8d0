//! The law of equality and of membership of ranges of counts.

ghost use Rattle.std.specs.Prelude.{◌≡◌, ◌↔◌, ℕ, IsTrue};
ghost use Rattle.std.specs.Range.Bound.{bounds_contain};
ghost use Rattle.winnow_count.specs.CountRange.{allows_count, greatest_count, least_count};
ghost use Rattle.winnow_count.specs.declared.range.Range.{Range};

use crate::Range;
use std::ops::RangeBounds;

/// The law of ranges. Two are equal exactly if their least and their greatest counts are. A range
/// contains a count exactly if the count is neither below the least nor above the greatest. It does
/// nothing when called: its contract is the law.
pub fn range_law()
    ensures equality { (a b : Range) → IsTrue (⟦<Range as PartialEq>⟧.eq a b)
        ↔ ((least_count a ≡ least_count b) × (greatest_count a ≡ greatest_count b)) }
    ensures membership { (range : Range) (n : ℕ) →
        let start = ⟦<Range as RangeBounds<usize>>⟧.start_bound range in
        let end = ⟦<Range as RangeBounds<usize>>⟧.end_bound range in
        bounds_contain ⟦<usize as PartialOrd>⟧.partial_cmp start end n ≡ allows_count range n }
{}
