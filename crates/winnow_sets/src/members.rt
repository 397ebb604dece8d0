//! `ContainsToken` for lists of members: slices and arrays of bytes or of characters.

ghost use Rattle.std.specs.Prelude.{◌≡◌};
ghost use Rattle.winnow_sets.specs.Sets.{is_one_of};

use crate::{AsChar, ContainsToken};

// Whether some byte stands for the character.
fn has_byte_for(bytes: &[u8], c: char) -> bool
    ensures { result ≡ is_one_of bytes.now c }
{
    bytes.iter().any(|byte| byte.as_char() == c)
}

/// The bytes of the slice.
impl<T: AsChar> ContainsToken<T> for &[u8] {
    ghost may_answer = { λ bytes token b. b ≡ is_one_of bytes.now (T.code token) };

    fn contains_token(&self, token: T) -> bool {
        has_byte_for(self, token.as_char())
    }
}

/// The characters of the slice.
impl<T: AsChar> ContainsToken<T> for &[char] {
    ghost may_answer = { λ chars token b. b ≡ is_one_of chars.now (T.code token) };

    fn contains_token(&self, token: T) -> bool {
        self.contains(&token.as_char())
    }
}

/// The bytes of the array.
impl<T: AsChar, const LEN: usize> ContainsToken<T> for [u8; LEN] {
    ghost may_answer = { λ bytes token b. b ≡ is_one_of bytes (T.code token) };

    fn contains_token(&self, token: T) -> bool {
        has_byte_for(self, token.as_char())
    }
}

/// The characters of the array.
impl<T: AsChar, const LEN: usize> ContainsToken<T> for [char; LEN] {
    ghost may_answer = { λ chars token b. b ≡ is_one_of chars (T.code token) };

    fn contains_token(&self, token: T) -> bool {
        self.contains(&token.as_char())
    }
}

/// The bytes of the array.
impl<T: AsChar, const LEN: usize> ContainsToken<T> for &[u8; LEN] {
    ghost may_answer = { λ bytes token b. b ≡ is_one_of bytes.now (T.code token) };

    fn contains_token(&self, token: T) -> bool {
        has_byte_for(*self, token.as_char())
    }
}

/// The characters of the array.
impl<T: AsChar, const LEN: usize> ContainsToken<T> for &[char; LEN] {
    ghost may_answer = { λ chars token b. b ≡ is_one_of chars.now (T.code token) };

    fn contains_token(&self, token: T) -> bool {
        self.contains(&token.as_char())
    }
}
