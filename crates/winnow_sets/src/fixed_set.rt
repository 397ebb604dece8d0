//! The trait of sets with one answer for each token, `FixedSet`, at all but ranges and unions.

ghost use Rattle.std.specs.Prelude.{◌≡◌, ◌==◌, Bool, false};
ghost use Rattle.winnow_sets.specs.Sets.{char_ranges, in_ranges, is_one_of, AnswersOnly};

use crate::{AsChar, CharSet, ContainsToken};

/// A set that holds a token or does not: asked of the same token again, it answers the same.
///
/// Every set of this crate is one, except a closure, whose own contract says what it returns.
/// Generic code that calls `holds_token` knows by [`held_law`](winnow_stream::held_law) which
/// tokens it takes.
pub trait FixedSet<T>: ContainsToken<T> {
    // Whether the set holds the token.
    ghost holds: { Self → T → Bool };

    /// Returns whether the token is in the set.
    fn holds_token(&self, token: T) -> bool
        requires { Self.askable self.now }
        ensures { result ≡ holds self.now token }
    {
        self.contains_token(token)
    }

    // The set answers nothing else.
    ghost answers_only: { (set : Self) (token : T)
        → AnswersOnly (Self.may_answer set token) (holds set token) };
}

/// The set of this byte alone.
impl FixedSet<u8> for u8 {
    ghost holds = { λ byte token. byte == token };

    ghost answers_only = { λ _ _ _ e. e };
}

impl FixedSet<&u8> for u8 {
    ghost holds = { λ byte token. byte == token.now };

    ghost answers_only = { λ _ _ _ e. e };
}

impl FixedSet<char> for u8 {
    ghost holds = { λ byte token. byte == token };

    ghost answers_only = { λ _ _ _ e. e };
}

impl FixedSet<&char> for u8 {
    ghost holds = { λ byte token. byte == token.now };

    ghost answers_only = { λ _ _ _ e. e };
}

/// The set of this character alone.
impl<T: AsChar> FixedSet<T> for char {
    ghost holds = { λ c token. c == T.code token };

    ghost answers_only = { λ _ _ _ e. e };
}

/// The set of no token.
impl<T: Drop> FixedSet<T> for () {
    ghost holds = { λ _ _. false };

    ghost answers_only = { λ _ _ _ e. e };
}

/// The bytes of the slice.
impl<T: AsChar> FixedSet<T> for &[u8] {
    ghost holds = { λ bytes token. is_one_of bytes.now (T.code token) };

    ghost answers_only = { λ _ _ _ e. e };
}

/// The characters of the slice.
impl<T: AsChar> FixedSet<T> for &[char] {
    ghost holds = { λ chars token. is_one_of chars.now (T.code token) };

    ghost answers_only = { λ _ _ _ e. e };
}

/// The bytes of the array.
impl<T: AsChar, const LEN: usize> FixedSet<T> for [u8; LEN] {
    ghost holds = { λ bytes token. is_one_of bytes (T.code token) };

    ghost answers_only = { λ _ _ _ e. e };
}

/// The characters of the array.
impl<T: AsChar, const LEN: usize> FixedSet<T> for [char; LEN] {
    ghost holds = { λ chars token. is_one_of chars (T.code token) };

    ghost answers_only = { λ _ _ _ e. e };
}

/// The bytes of the array.
impl<T: AsChar, const LEN: usize> FixedSet<T> for &[u8; LEN] {
    ghost holds = { λ bytes token. is_one_of bytes.now (T.code token) };

    ghost answers_only = { λ _ _ _ e. e };
}

/// The characters of the array.
impl<T: AsChar, const LEN: usize> FixedSet<T> for &[char; LEN] {
    ghost holds = { λ chars token. is_one_of chars.now (T.code token) };

    ghost answers_only = { λ _ _ _ e. e };
}

/// The characters of the ranges.
impl<T: AsChar> FixedSet<T> for CharSet<'_> {
    ghost holds = { λ set token. in_ranges (char_ranges set) (T.code token) };

    ghost answers_only = { λ _ _ _ e. e };
}
