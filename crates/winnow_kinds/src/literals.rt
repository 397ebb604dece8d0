//! The literals that bytes are compared with: `ByteLiteral`.

#![tactic(auto, using(winnow_match::proofs::lemmas::ByteLemmas::source_bytes))]

ghost use Rattle.std.specs.Prelude.{◌≡◌, ℕ, [], ◌∷◌, List};
ghost use Rattle.std.specs.Char.{encode_utf8};
ghost use Rattle.winnow_match.specs.Comparison.{comparison};

use winnow_match::{Compare, CompareResult};

/// A literal that bytes are compared with. Everything that `&[u8]` is compared with is one, so a
/// stream around a slice of bytes is compared with the same literals.
pub trait ByteLiteral {
    // The bytes of the literal.
    ghost literal_bytes: { Self → List ℕ };

    /// Returns how the literal compares with the front of the bytes.
    fn compare_with(self, bytes: &[u8]) -> CompareResult
        ensures { result ≡ comparison (literal_bytes self) bytes.now };
}

impl ByteLiteral for &[u8] {
    ghost literal_bytes = { λ literal. literal.now };

    fn compare_with(self, bytes: &[u8]) -> CompareResult {
        bytes.compare(self)
    }
}

impl<const LEN: usize> ByteLiteral for [u8; LEN] {
    ghost literal_bytes = { λ literal. literal };

    fn compare_with(self, bytes: &[u8]) -> CompareResult {
        bytes.compare(self)
    }
}

impl<const LEN: usize> ByteLiteral for &[u8; LEN] {
    ghost literal_bytes = { λ literal. literal.now };

    fn compare_with(self, bytes: &[u8]) -> CompareResult {
        bytes.compare(self)
    }
}

impl ByteLiteral for &str {
    ghost literal_bytes = { λ literal. literal.now };

    fn compare_with(self, bytes: &[u8]) -> CompareResult {
        bytes.compare(self)
    }
}

impl ByteLiteral for u8 {
    ghost literal_bytes = { λ literal. literal ∷ [] };

    fn compare_with(self, bytes: &[u8]) -> CompareResult {
        bytes.compare(self)
    }
}

/// The character is compared in its UTF-8 form.
impl ByteLiteral for char {
    ghost literal_bytes = { λ literal. encode_utf8 literal };

    fn compare_with(self, bytes: &[u8]) -> CompareResult {
        bytes.compare(self)
    }
}
