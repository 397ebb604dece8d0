//! The classes of ASCII characters, as sets of tokens: `Class`.

ghost use Rattle.std.specs.Prelude.{◌≡◌};
ghost use Rattle.winnow_ascii.specs.Classes.{is_in_class};

use winnow_sets::{AsChar, ContainsToken, FixedSet};

/// A class of ASCII characters, as a set of tokens.
#[derive(Clone, Copy, Debug, PartialEq, Eq)]
pub enum Class {
    /// `A` to `Z` and `a` to `z`
    Alpha,
    /// `0` to `9`
    Digit,
    /// Letters and digits
    Alphanumeric,
    /// `0` to `9`, `A` to `F` and `a` to `f`
    HexDigit,
    /// `0` to `7`
    OctDigit,
    /// A space and a tab
    Space,
    /// A space, a tab, a carriage return and a newline
    Multispace,
}

impl<T: AsChar> ContainsToken<T> for Class {
    ghost may_answer = { λ class token b. b ≡ is_in_class class (T.code token) };

    fn contains_token(&self, token: T) -> bool {
        match self {
            Class::Alpha => token.is_alpha(),
            Class::Digit => token.is_dec_digit(),
            Class::Alphanumeric => token.is_alphanum(),
            Class::HexDigit => token.is_hex_digit(),
            Class::OctDigit => token.is_oct_digit(),
            Class::Space => token.is_space(),
            Class::Multispace => {
                let c = token.as_char();
                c == ' ' || c == '\t' || c == '\r' || c == '\n'
            }
        }
    }
}

impl<T: AsChar> FixedSet<T> for Class {
    ghost holds = { λ class token. is_in_class class (T.code token) };

    ghost answers_only = { λ _ _ _ e. e };
}
