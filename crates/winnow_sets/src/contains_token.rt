//! The trait of sets of tokens, `ContainsToken`, and sets of one token or of none.

ghost use Rattle.std.specs.Prelude.{◌≡◌, ◌==◌, Bool, false, ⊤};

use crate::AsChar;

/// A set of tokens.
///
/// A byte in a set stands for the character of its number, and so does a byte that the set is asked
/// about.
pub trait ContainsToken<T> {
    // The sets that may be asked.
    ghost askable: { Self → Type 0 } = { λ _. ⊤ };

    // The answers that the set may give of a token.
    ghost may_answer: { Self → T → Bool → Type 0 };

    /// Returns whether the token is in the set.
    fn contains_token(&self, token: T) -> bool
        requires { askable self.now }
        ensures { may_answer self.now token result };
}

/// The set of this byte alone.
impl ContainsToken<u8> for u8 {
    ghost may_answer = { λ byte token b. b ≡ (byte == token) };

    fn contains_token(&self, token: u8) -> bool {
        *self == token
    }
}

impl ContainsToken<&u8> for u8 {
    ghost may_answer = { λ byte token b. b ≡ (byte == token.now) };

    fn contains_token(&self, token: &u8) -> bool {
        *self == *token
    }
}

impl ContainsToken<char> for u8 {
    ghost may_answer = { λ byte token b. b ≡ (byte == token) };

    fn contains_token(&self, token: char) -> bool {
        self.as_char() == token
    }
}

impl ContainsToken<&char> for u8 {
    ghost may_answer = { λ byte token b. b ≡ (byte == token.now) };

    fn contains_token(&self, token: &char) -> bool {
        self.as_char() == *token
    }
}

/// The set of this character alone.
impl<T: AsChar> ContainsToken<T> for char {
    ghost may_answer = { λ c token b. b ≡ (c == T.code token) };

    fn contains_token(&self, token: T) -> bool {
        *self == token.as_char()
    }
}

/// The set of no token.
impl<T: Drop> ContainsToken<T> for () {
    ghost may_answer = { λ _ _ b. b ≡ false };

    fn contains_token(&self, _token: T) -> bool {
        false
    }
}
