//! `CharSet`: a set of characters as data, a list of ranges.

ghost use Rattle.std.specs.Prelude.{◌≡◌};
ghost use Rattle.winnow_sets.specs.Sets.{char_ranges, in_ranges, least_of_first};

use crate::{AsChar, ContainsToken};
use winnow_stream::ScriptSet;

/// A set of characters as data: ranges, each with both of its ends. A range whose ends are reversed
/// has no character.
#[derive(Clone, Copy, Debug)]
pub struct CharSet<'k> {
    ranges: &'k [(char, char)],
}

impl<'k> CharSet<'k> {
    ghost use Rattle.std.specs.Prelude.{◌≡◌, ◌≤◌, ℕ, false, IfNone, IfSome, IsTrue};
    ghost use Rattle.winnow_sets.specs.Sets.{char_ranges, in_ranges, least_of_first};

    /// Returns the set of these ranges.
    pub fn new(ranges: &'k [(char, char)]) -> Self
        ensures { char_ranges result ≡ ranges.now }
    {
        CharSet { ranges }
    }

    /// Returns a byte of the set: the least byte of the first range that has one. It is `None`
    /// exactly if no byte is in the set.
    #[tactic(auto, using(crate::proofs::lemmas::RangeLemmas::least_held, crate::proofs::lemmas::RangeLemmas::least_within, crate::proofs::lemmas::RangeLemmas::none_held))]
    pub fn any_byte(&self) -> Option<u8>
        ensures value { result ≡ least_of_first 255 (char_ranges self.now) }
        ensures held { IfSome result (λ b. IsTrue (in_ranges (char_ranges self.now) b)) }
        ensures none { IfNone result ((b : ℕ) → b ≤ 255
            → in_ranges (char_ranges self.now) b ≡ false) }
    {
        let least = least_of(self.ranges, '\u{ff}')?;
        u8::try_from(least).ok()
    }

    /// Returns a character of the set: the least character of the first range that has one. It is
    /// `None` exactly if no character is in the set.
    #[tactic(auto, using(crate::proofs::lemmas::RangeLemmas::least_held, crate::proofs::lemmas::RangeLemmas::none_held))]
    pub fn any_char(&self) -> Option<char>
        ensures value { result ≡ least_of_first 1114111 (char_ranges self.now) }
        ensures held { IfSome result (λ c. IsTrue (in_ranges (char_ranges self.now) c)) }
        ensures none { IfNone result ((c : ℕ) → c ≤ 1114111
            → in_ranges (char_ranges self.now) c ≡ false) }
    {
        least_of(self.ranges, char::MAX)
    }
}

// The least character of the first range that has one up to `greatest`.
fn least_of(ranges: &[(char, char)], greatest: char) -> Option<char>
    ensures { result ≡ least_of_first greatest ranges.now }
{
    let range = ranges
        .iter()
        .find(|range| range.0 <= range.1 && range.0 <= greatest)?;
    Some(range.0)
}

// Whether some range has the character.
fn is_in_ranges(ranges: &[(char, char)], c: char) -> bool
    ensures { result ≡ in_ranges ranges.now c }
{
    ranges.iter().any(|range| range.0 <= c && c <= range.1)
}

impl<T: AsChar> ContainsToken<T> for CharSet<'_> {
    ghost may_answer = { λ set token b. b ≡ in_ranges (char_ranges set) (T.code token) };

    fn contains_token(&self, token: T) -> bool {
        is_in_ranges(self.ranges, token.as_char())
    }
}

impl<T: AsChar> ScriptSet<T> for CharSet<'_> {
    ghost may_answer = { λ set token b. b ≡ in_ranges (char_ranges set) (T.code token) };

    fn holds(&self, token: T) -> bool {
        self.contains_token(token)
    }
}
