//! `AsBytes` and `AsBStr`: the remaining input as bytes.

ghost use Rattle.std.specs.Prelude.{◌≡◌, ℕ, List};

/// What remains of a stream, as bytes that need not be text.
pub trait AsBytes {
    ghost bytes: { Self → List ℕ };

    /// Returns the remaining bytes.
    fn as_bytes(&self) -> &[u8]
        ensures { result.now ≡ bytes self.now };
}

/// What remains of a stream, as bytes that are text by convention.
pub trait AsBStr {
    ghost text_bytes: { Self → List ℕ };

    /// Returns the remaining bytes. For a text these are its UTF-8.
    fn as_bstr(&self) -> &[u8]
        ensures { result.now ≡ text_bytes self.now };
}

impl AsBytes for &[u8] {
    ghost bytes = { λ s. s.now };

    fn as_bytes(&self) -> &[u8] {
        self
    }
}

impl AsBStr for &[u8] {
    ghost text_bytes = { λ s. s.now };

    fn as_bstr(&self) -> &[u8] {
        self
    }
}

impl AsBStr for &str {
    ghost text_bytes = { λ s. s.now };

    fn as_bstr(&self) -> &[u8] {
        (*self).as_bytes()
    }
}
