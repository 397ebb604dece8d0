//! `FixedSet` for ranges.

ghost use Rattle.std.specs.Prelude.{nat_le, nat_lt, true};
ghost use Rattle.std.specs.Int.{is_in_range};
ghost use Rattle.std.specs.Range.{range_inclusive_start, range_inclusive_end};
ghost use Rattle.winnow_sets.specs.Sets.{is_between};

use crate::{AsChar, FixedSet};
use std::ops::{Range, RangeFrom, RangeFull, RangeInclusive, RangeTo, RangeToInclusive};

/// The characters from the first bound up to the second, without the second.
impl<T: AsChar, B: AsChar + Copy> FixedSet<T> for Range<B> {
    ghost holds = { λ range token. is_between (B.code range.start) (B.code range.end)
        (T.code token) };

    ghost answers_only = { λ _ _ _ e. e };
}

/// The characters from the first bound up to the second, with both.
impl<T: AsChar, B: AsChar + Copy> FixedSet<T> for RangeInclusive<B> {
    ghost holds = { λ range token. is_in_range (B.code (range_inclusive_start range))
        (B.code (range_inclusive_end range)) (T.code token) };

    ghost answers_only = { λ _ _ _ e. e };
}

/// The bound, and the characters after it.
impl<T: AsChar, B: AsChar + Copy> FixedSet<T> for RangeFrom<B> {
    ghost holds = { λ range token. nat_le (B.code range.start) (T.code token) };

    ghost answers_only = { λ _ _ _ e. e };
}

/// The characters before the bound.
impl<T: AsChar, B: AsChar + Copy> FixedSet<T> for RangeTo<B> {
    ghost holds = { λ range token. nat_lt (T.code token) (B.code range.end) };

    ghost answers_only = { λ _ _ _ e. e };
}

/// The bound, and the characters before it.
impl<T: AsChar, B: AsChar + Copy> FixedSet<T> for RangeToInclusive<B> {
    ghost holds = { λ range token. nat_le (T.code token) (B.code range.end) };

    ghost answers_only = { λ _ _ _ e. e };
}

/// The set of every token.
impl<T: AsChar + Drop> FixedSet<T> for RangeFull {
    ghost holds = { λ _ _. true };

    ghost answers_only = { λ _ _ _ e. e };
}
