//! Tokens that stand for characters: `AsChar`.

ghost use Rattle.std.specs.Prelude.{◌≡◌, ℕ};
ghost use Rattle.std.specs.Char.{len_utf8, is_newline, is_ascii_alphabetic, is_ascii_alphanumeric};
ghost use Rattle.std.specs.Char.{is_ascii_digit, is_ascii_hexdigit};
ghost use Rattle.winnow_sets.specs.Classes.{is_ascii_oct_digit, is_ascii_blank};

/// A token that stands for a character. A byte stands for the character of its number: `E9` for
/// `é`.
pub trait AsChar: Sized {
    // The number of the character.
    ghost code: { Self → ℕ };

    // The width of the token.
    ghost width: { Self → ℕ };

    /// Returns the character.
    fn as_char(self) -> char
        ensures { result ≡ code self };

    /// Returns the width of the token: 1 for a byte, the length in UTF-8 for a character.
    fn len(self) -> usize
        ensures { result ≡ width self };

    /// Returns whether it is a letter of ASCII.
    fn is_alpha(self) -> bool
        ensures { result ≡ is_ascii_alphabetic (code self) }
    {
        self.as_char().is_ascii_alphabetic()
    }

    /// Returns whether it is a letter or a digit of ASCII.
    fn is_alphanum(self) -> bool
        ensures { result ≡ is_ascii_alphanumeric (code self) }
    {
        self.as_char().is_ascii_alphanumeric()
    }

    /// Returns whether it is one of `0` to `9`.
    fn is_dec_digit(self) -> bool
        ensures { result ≡ is_ascii_digit (code self) }
    {
        self.as_char().is_ascii_digit()
    }

    /// Returns whether it is one of `0` to `9`, `a` to `f` and `A` to `F`.
    fn is_hex_digit(self) -> bool
        ensures { result ≡ is_ascii_hexdigit (code self) }
    {
        self.as_char().is_ascii_hexdigit()
    }

    /// Returns whether it is one of `0` to `7`.
    fn is_oct_digit(self) -> bool
        ensures { result ≡ is_ascii_oct_digit (code self) }
    {
        matches!(self.as_char(), '0'..='7')
    }

    /// Returns whether it is a space or a tab.
    fn is_space(self) -> bool
        ensures { result ≡ is_ascii_blank (code self) }
    {
        let c = self.as_char();
        c == ' ' || c == '\t'
    }

    /// Returns whether it is a line feed.
    fn is_newline(self) -> bool
        ensures { result ≡ is_newline (code self) }
    {
        self.as_char() == '\n'
    }
}

impl AsChar for u8 {
    ghost code = { λ byte. byte };

    ghost width = { λ _. 1 };

    fn as_char(self) -> char {
        char::from(self)
    }

    fn len(self) -> usize {
        1
    }
}

impl AsChar for &u8 {
    ghost code = { λ byte. byte.now };

    ghost width = { λ _. 1 };

    fn as_char(self) -> char {
        char::from(*self)
    }

    fn len(self) -> usize {
        1
    }
}

impl AsChar for char {
    ghost code = { λ c. c };

    ghost width = { len_utf8 };

    fn as_char(self) -> char {
        self
    }

    fn len(self) -> usize {
        self.len_utf8()
    }
}

impl AsChar for &char {
    ghost code = { λ c. c.now };

    ghost width = { λ c. len_utf8 c.now };

    fn as_char(self) -> char {
        *self
    }

    fn len(self) -> usize {
        self.len_utf8()
    }
}
