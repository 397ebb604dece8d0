//! `ContainsToken` for ranges.

ghost use Rattle.std.specs.Prelude.{◌≡◌, nat_le, nat_lt, true};
ghost use Rattle.std.specs.Int.{is_in_range};
ghost use Rattle.std.specs.Range.{range_inclusive_start, range_inclusive_end};
ghost use Rattle.winnow_sets.specs.Sets.{is_between};

use crate::{AsChar, ContainsToken};
use std::ops::{Range, RangeFrom, RangeFull, RangeInclusive, RangeTo, RangeToInclusive};

/// The characters from the first bound up to the second, without the second.
impl<T: AsChar, B: AsChar + Copy> ContainsToken<T> for Range<B> {
    ghost may_answer = { λ range token b.
        b ≡ is_between (B.code range.start) (B.code range.end) (T.code token) };

    fn contains_token(&self, token: T) -> bool {
        let c = token.as_char();
        self.start.as_char() <= c && c < self.end.as_char()
    }
}

/// The characters from the first bound up to the second, with both.
impl<T: AsChar, B: AsChar + Copy> ContainsToken<T> for RangeInclusive<B> {
    ghost may_answer = { λ range token b.
        b ≡ is_in_range (B.code (range_inclusive_start range)) (B.code (range_inclusive_end range))
        (T.code token) };

    fn contains_token(&self, token: T) -> bool {
        let c = token.as_char();
        self.start().as_char() <= c && c <= self.end().as_char()
    }
}

/// The bound, and the characters after it.
impl<T: AsChar, B: AsChar + Copy> ContainsToken<T> for RangeFrom<B> {
    ghost may_answer = { λ range token b. b ≡ nat_le (B.code range.start) (T.code token) };

    fn contains_token(&self, token: T) -> bool {
        self.start.as_char() <= token.as_char()
    }
}

/// The characters before the bound.
impl<T: AsChar, B: AsChar + Copy> ContainsToken<T> for RangeTo<B> {
    ghost may_answer = { λ range token b. b ≡ nat_lt (T.code token) (B.code range.end) };

    fn contains_token(&self, token: T) -> bool {
        token.as_char() < self.end.as_char()
    }
}

/// The bound, and the characters before it.
impl<T: AsChar, B: AsChar + Copy> ContainsToken<T> for RangeToInclusive<B> {
    ghost may_answer = { λ range token b. b ≡ nat_le (T.code token) (B.code range.end) };

    fn contains_token(&self, token: T) -> bool {
        token.as_char() <= self.end.as_char()
    }
}

/// The set of every token.
impl<T: AsChar + Drop> ContainsToken<T> for RangeFull {
    ghost may_answer = { λ _ _ b. b ≡ true };

    fn contains_token(&self, _token: T) -> bool {
        true
    }
}
