//! The needles that bytes are searched for: `ByteNeedles`.

#![tactic(auto, using(winnow_match::proofs::lemmas::ByteLemmas::source_bytes))]

ghost use Rattle.std.specs.Prelude.{◌≡◌, ℕ, [], ◌∷◌, List};
ghost use Rattle.std.specs.Char.{encode_utf8};
ghost use Rattle.winnow_match.specs.Search.{hit, bytes_of_needles};

use std::ops::Range;
use winnow_match::{FindSlice, Needles};

/// A needle, or one of several, that bytes are searched for. Everything that `&[u8]` is searched
/// for is one, so a stream around a slice of bytes is searched for the same needles.
pub trait ByteNeedles {
    // The bytes of each needle. At one place, an earlier needle is preferred to a later one.
    ghost needle_bytes: { Self → List (List ℕ) };

    /// Returns the least place at which a needle stands in the bytes, up to the end of the first
    /// listed needle that stands there.
    fn find_in(self, bytes: &[u8]) -> Option<Range<usize>>
        ensures { result ≡ hit (needle_bytes self) bytes.now };
}

impl ByteNeedles for &[u8] {
    ghost needle_bytes = { λ needle. needle.now ∷ [] };

    fn find_in(self, bytes: &[u8]) -> Option<Range<usize>> {
        bytes.find_slice(self)
    }
}

impl ByteNeedles for (&[u8],) {
    ghost needle_bytes = { λ needles. needles.0.now ∷ [] };

    fn find_in(self, bytes: &[u8]) -> Option<Range<usize>> {
        bytes.find_slice(self)
    }
}

impl<'n> ByteNeedles for (&'n [u8], &'n [u8]) {
    ghost needle_bytes = { λ needles. needles.0.now ∷ needles.1.now ∷ [] };

    fn find_in(self, bytes: &[u8]) -> Option<Range<usize>> {
        bytes.find_slice(self)
    }
}

impl<'n> ByteNeedles for (&'n [u8], &'n [u8], &'n [u8]) {
    ghost needle_bytes = { λ needles. needles.0.now ∷ needles.1.now ∷ needles.2.now ∷ [] };

    fn find_in(self, bytes: &[u8]) -> Option<Range<usize>> {
        bytes.find_slice(self)
    }
}

impl ByteNeedles for Needles<&[u8]> {
    ghost needle_bytes = { λ needles. bytes_of_needles needles };

    fn find_in(self, bytes: &[u8]) -> Option<Range<usize>> {
        bytes.find_slice(self)
    }
}

impl ByteNeedles for &str {
    ghost needle_bytes = { λ needle. needle.now ∷ [] };

    fn find_in(self, bytes: &[u8]) -> Option<Range<usize>> {
        bytes.find_slice(self)
    }
}

impl ByteNeedles for (&str,) {
    ghost needle_bytes = { λ needles. needles.0.now ∷ [] };

    fn find_in(self, bytes: &[u8]) -> Option<Range<usize>> {
        bytes.find_slice(self)
    }
}

impl<'n> ByteNeedles for (&'n str, &'n str) {
    ghost needle_bytes = { λ needles. needles.0.now ∷ needles.1.now ∷ [] };

    fn find_in(self, bytes: &[u8]) -> Option<Range<usize>> {
        bytes.find_slice(self)
    }
}

impl<'n> ByteNeedles for (&'n str, &'n str, &'n str) {
    ghost needle_bytes = { λ needles. needles.0.now ∷ needles.1.now ∷ needles.2.now ∷ [] };

    fn find_in(self, bytes: &[u8]) -> Option<Range<usize>> {
        bytes.find_slice(self)
    }
}

impl ByteNeedles for u8 {
    ghost needle_bytes = { λ byte. (byte ∷ []) ∷ [] };

    fn find_in(self, bytes: &[u8]) -> Option<Range<usize>> {
        bytes.find_slice(self)
    }
}

impl ByteNeedles for (u8,) {
    ghost needle_bytes = { λ bytes. (bytes.0 ∷ []) ∷ [] };

    fn find_in(self, bytes: &[u8]) -> Option<Range<usize>> {
        bytes.find_slice(self)
    }
}

impl ByteNeedles for (u8, u8) {
    ghost needle_bytes = { λ bytes. (bytes.0 ∷ []) ∷ (bytes.1 ∷ []) ∷ [] };

    fn find_in(self, bytes: &[u8]) -> Option<Range<usize>> {
        bytes.find_slice(self)
    }
}

impl ByteNeedles for (u8, u8, u8) {
    ghost needle_bytes = { λ bytes. (bytes.0 ∷ []) ∷ (bytes.1 ∷ []) ∷ (bytes.2 ∷ []) ∷ [] };

    fn find_in(self, bytes: &[u8]) -> Option<Range<usize>> {
        bytes.find_slice(self)
    }
}

/// The character is searched for in its UTF-8 form.
impl ByteNeedles for char {
    ghost needle_bytes = { λ c. encode_utf8 c ∷ [] };

    fn find_in(self, bytes: &[u8]) -> Option<Range<usize>> {
        bytes.find_slice(self)
    }
}

/// The character is searched for in its UTF-8 form.
impl ByteNeedles for (char,) {
    ghost needle_bytes = { λ cs. encode_utf8 cs.0 ∷ [] };

    fn find_in(self, bytes: &[u8]) -> Option<Range<usize>> {
        bytes.find_slice(self)
    }
}

/// The characters are searched for in their UTF-8 form.
impl ByteNeedles for (char, char) {
    ghost needle_bytes = { λ cs. encode_utf8 cs.0 ∷ encode_utf8 cs.1 ∷ [] };

    fn find_in(self, bytes: &[u8]) -> Option<Range<usize>> {
        bytes.find_slice(self)
    }
}

/// The characters are searched for in their UTF-8 form.
impl ByteNeedles for (char, char, char) {
    ghost needle_bytes = { λ cs. encode_utf8 cs.0 ∷ encode_utf8 cs.1 ∷ encode_utf8 cs.2 ∷ [] };

    fn find_in(self, bytes: &[u8]) -> Option<Range<usize>> {
        bytes.find_slice(self)
    }
}
