//! The ghost members of characters and of sets, spelled out for each type.
ghost use Rattle.std.specs.Prelude.{◌≡◌, ◌==◌, ◌||◌, ℕ, List, nat_le, nat_lt, true, false};
ghost use Rattle.std.specs.Borrow.{Bor};
ghost use Rattle.std.specs.Char.{len_utf8};
ghost use Rattle.std.specs.Int.{is_in_range};
ghost use Rattle.std.specs.Range.{range_inclusive_start, range_inclusive_end};
ghost use Rattle.winnow_sets.specs.Sets.{char_ranges, in_ranges, is_between, is_one_of};
ghost use Rattle.winnow_sets.specs.declared.char_set.CharSet.{CharSet};

use std::ops::{Range, RangeFrom, RangeFull, RangeInclusive, RangeTo, RangeToInclusive};
use winnow_sets::{AsChar, CharSet, FixedSet};

/// A byte is the character with its number and has width 1. A character is itself, and as wide as
/// its UTF-8.
pub fn character_members()
    ensures byte { (b : ℕ) → ⟦<u8 as AsChar>⟧.code b ≡ b }
    ensures byte_width { (b : ℕ) → ⟦<u8 as AsChar>⟧.width b ≡ 1 }
    ensures lent_byte { (b : Bor ℕ) → ⟦<&'static u8 as AsChar>⟧.code b ≡ b.now }
    ensures lent_byte_width { (b : Bor ℕ) → ⟦<&'static u8 as AsChar>⟧.width b ≡ 1 }
    ensures char { (c : ℕ) → ⟦<char as AsChar>⟧.code c ≡ c }
    ensures char_width { (c : ℕ) → ⟦<char as AsChar>⟧.width c ≡ len_utf8 c }
    ensures lent_char { (c : Bor ℕ) → ⟦<&'static char as AsChar>⟧.code c ≡ c.now }
    ensures lent_char_width { (c : Bor ℕ) → ⟦<&'static char as AsChar>⟧.width c ≡ len_utf8 c.now }
{}

/// A byte holds the tokens of each kind with its number, and a character holds the tokens that
/// stand for it.
pub fn single_set_members<T: AsChar>()
    ensures byte { (set token : ℕ) → ⟦<u8 as FixedSet<u8>>⟧.holds set token ≡ (set == token) }
    ensures lent_byte { (set : ℕ) (token : Bor ℕ)
        → ⟦<u8 as FixedSet<&'static u8>>⟧.holds set token ≡ (set == token.now) }
    ensures char { (set token : ℕ) → ⟦<u8 as FixedSet<char>>⟧.holds set token ≡ (set == token) }
    ensures lent_char { (set : ℕ) (token : Bor ℕ)
        → ⟦<u8 as FixedSet<&'static char>>⟧.holds set token ≡ (set == token.now) }
    ensures chars { (set : ℕ) (token : T)
        → ⟦<char as FixedSet<T>>⟧.holds set token ≡ (set == T.code token) }
{}

/// A list holds the tokens that it lists, a set of characters those that its ranges hold, `()` none
/// and `..` all.
pub fn listed_set_members<T: AsChar + Drop, const LEN: usize>()
    ensures none { (set : _) (token : T) → ⟦<() as FixedSet<T>>⟧.holds set token ≡ false }
    ensures all { (set : _) (token : T) → ⟦<RangeFull as FixedSet<T>>⟧.holds set token ≡ true }
    ensures bytes { (set : Bor (List ℕ)) (token : T)
        → ⟦<&'static [u8] as FixedSet<T>>⟧.holds set token ≡ is_one_of set.now (T.code token) }
    ensures chars { (set : Bor (List ℕ)) (token : T)
        → ⟦<&'static [char] as FixedSet<T>>⟧.holds set token ≡ is_one_of set.now (T.code token) }
    ensures byte_array { (set : List ℕ) (token : T)
        → ⟦<[u8; LEN] as FixedSet<T>>⟧.holds set token ≡ is_one_of set (T.code token) }
    ensures char_array { (set : List ℕ) (token : T)
        → ⟦<[char; LEN] as FixedSet<T>>⟧.holds set token ≡ is_one_of set (T.code token) }
    ensures lent_byte_array { (set : Bor (List ℕ)) (token : T)
        → ⟦<&'static [u8; LEN] as FixedSet<T>>⟧.holds set token
        ≡ is_one_of set.now (T.code token) }
    ensures lent_char_array { (set : Bor (List ℕ)) (token : T)
        → ⟦<&'static [char; LEN] as FixedSet<T>>⟧.holds set token
        ≡ is_one_of set.now (T.code token) }
    ensures ranges { (set : CharSet) (token : T)
        → ⟦<CharSet<'static> as FixedSet<T>>⟧.holds set token
        ≡ in_ranges (char_ranges set) (T.code token) }
{}

/// A range holds the characters from its start up to its end, and the end too where it is closed.
pub fn range_set_members<T: AsChar, B: AsChar + Copy>()
    ensures half_open { (set : _) (token : T)
        → ⟦<Range<B> as FixedSet<T>>⟧.holds set token
        ≡ is_between (B.code set.start) (B.code set.end) (T.code token) }
    ensures closed { (set : _) (token : T)
        → ⟦<RangeInclusive<B> as FixedSet<T>>⟧.holds set token
        ≡ is_in_range (B.code (range_inclusive_start set)) (B.code (range_inclusive_end set))
        (T.code token) }
    ensures from { (set : _) (token : T)
        → ⟦<RangeFrom<B> as FixedSet<T>>⟧.holds set token
        ≡ nat_le (B.code set.start) (T.code token) }
    ensures below { (set : _) (token : T)
        → ⟦<RangeTo<B> as FixedSet<T>>⟧.holds set token
        ≡ nat_lt (T.code token) (B.code set.end) }
    ensures up_to { (set : _) (token : T)
        → ⟦<RangeToInclusive<B> as FixedSet<T>>⟧.holds set token
        ≡ nat_le (T.code token) (B.code set.end) }
{}

/// A union holds the tokens that one of its sets holds.
pub fn union_set_members<T: Copy, A: FixedSet<T>>()
    ensures one { (s : _) (t : T) → ⟦<(A,) as FixedSet<T>>⟧.holds s t
        ≡ A.holds s.0 t }
    ensures two { (s : _) (t : T) → ⟦<(A, A) as FixedSet<T>>⟧.holds s t
        ≡ (A.holds s.0 t || A.holds s.1 t) }
    ensures three { (s : _) (t : T) → ⟦<(A, A, A) as FixedSet<T>>⟧.holds s t
        ≡ (A.holds s.0 t || (A.holds s.1 t || A.holds s.2 t)) }
    ensures four { (s : _) (t : T) → ⟦<(A, A, A, A) as FixedSet<T>>⟧.holds s t
        ≡ (A.holds s.0 t || (A.holds s.1 t || (A.holds s.2 t || A.holds s.3 t))) }
    ensures five { (s : _) (t : T) → ⟦<(A, A, A, A, A) as FixedSet<T>>⟧.holds s t
        ≡ (A.holds s.0 t || (A.holds s.1 t || (A.holds s.2 t || (A.holds s.3 t ||
        A.holds s.4 t)))) }
    ensures six { (s : _) (t : T) → ⟦<(A, A, A, A, A, A) as FixedSet<T>>⟧.holds s t
        ≡ (A.holds s.0 t || (A.holds s.1 t || (A.holds s.2 t || (A.holds s.3 t || (A.holds s.4 t ||
        A.holds s.5 t))))) }
    ensures seven { (s : _) (t : T) → ⟦<(A, A, A, A, A, A, A) as FixedSet<T>>⟧.holds s t
        ≡ (A.holds s.0 t || (A.holds s.1 t || (A.holds s.2 t || (A.holds s.3 t || (A.holds s.4 t ||
        (A.holds s.5 t || A.holds s.6 t)))))) }
    ensures eight { (s : _) (t : T) → ⟦<(A, A, A, A, A, A, A, A) as FixedSet<T>>⟧.holds s t
        ≡ (A.holds s.0 t || (A.holds s.1 t || (A.holds s.2 t || (A.holds s.3 t || (A.holds s.4 t ||
        (A.holds s.5 t || (A.holds s.6 t || A.holds s.7 t))))))) }
    ensures nine { (s : _) (t : T) → ⟦<(A, A, A, A, A, A, A, A, A) as FixedSet<T>>⟧.holds s t
        ≡ (A.holds s.0 t || (A.holds s.1 t || (A.holds s.2 t || (A.holds s.3 t || (A.holds s.4 t ||
        (A.holds s.5 t || (A.holds s.6 t || (A.holds s.7 t || A.holds s.8 t)))))))) }
    ensures ten { (s : _) (t : T) → ⟦<(A, A, A, A, A, A, A, A, A, A) as FixedSet<T>>⟧.holds s t
        ≡ (A.holds s.0 t || (A.holds s.1 t || (A.holds s.2 t || (A.holds s.3 t || (A.holds s.4 t ||
        (A.holds s.5 t || (A.holds s.6 t || (A.holds s.7 t || (A.holds s.8 t ||
        A.holds s.9 t))))))))) }
{}
